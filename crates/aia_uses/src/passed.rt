//! What becomes pending at a virtual hart, sources that are passed to it among that.

ghost use Rattle.std.specs.Prelude.{◌≡◌, ◌⊎◌, ℕ, Bool, ◌%◌, ◌&&◌, true, false, None, Some};
ghost use Rattle.std.specs.List.{Contains, list_any};
ghost use Rattle.aia_regs.specs.declared.address_map.TheConstants.{PAGE};
ghost use Rattle.aia_regs.specs.declared.access.Csr.TheVariants.{Topei, Reg};
ghost use Rattle.aia_regs.specs.declared.access.Op.{Op};
ghost use Rattle.aia_regs.specs.FileRegisters.{register_of, eip_said};
ghost use Rattle.aia_regs.specs.Request.{requested};
ghost use Rattle.aia_regs.specs.BitUpdate.{names};
ghost use Rattle.aia_regs.specs.BitUpdate.BitUpdate.{Ask};
ghost use Rattle.aia_vcpu.specs.Vms.{Vcpu, vcpu_of, is_vcpu};
ghost use Rattle.aia_vcpu.specs.Routes.{is_at_fence};
ghost use Rattle.aia_model.specs.declared.line.Line.{Line};
ghost use Rattle.aia_model.specs.declared.line.Line.TheVariants as lines;
ghost use Rattle.aia_model.specs.declared.msi.Msi.{Msi};
ghost use Rattle.aia_model.specs.declared.want.Want.TheVariants.{Leave};
ghost use Rattle.aia_model.specs.Event.{History, has_machine, greatest_identity_of};
ghost use Rattle.aia_model.specs.Flight.{flight};
ghost use Rattle.aia_model.specs.HomeOf.{home};
ghost use Rattle.aia_model.specs.Passes.{nth_pass, passed_by};
ghost use Rattle.aia_model.specs.Sent.{msis_sent_by};
ghost use Rattle.aia_model.specs.GuestFile.{named_by, sent_to, guest_file, guest_select};
ghost use Rattle.aia_model.specs.Refusal.{refusal};
ghost use Rattle.aia_model.specs.Answer.{after};
ghost use Rattle.aia_model.specs.Histories.{IsHistory};
ghost use Rattle.aia_model.specs.Script.{history_of};
ghost use Rattle.aia_uses.specs.declared.forwards.TheConstants.{PASSED};
ghost use Rattle.aia_uses.specs.Passed.{IsForwarded};
ghost use Rattle.aia_uses.specs.Worked.{in_flight};

use aia_isolation::guests::none_comes_unasked_where_sources_are_passed;

/// What becomes pending within a line that does no step of a move: the line asks for it, or
/// forwards a source that is passed there as this identity.
pub fn what_comes_is_asked_for_or_forwarded()
    ensures msi { (h : History) (vm addr value : ℕ) (g : Vcpu) (i : ℕ) → has_machine h ≡ true
        → (guest_file h g).pending i ≡ false
        → (guest_file (after h (lines.Msi vm addr value)) g).pending i ≡ true
        → (refusal h (lines.Msi vm addr value) ≡ None)
        × (((named_by h vm addr ≡ g)
        × (requested (greatest_identity_of h) (addr % PAGE) value ≡ Some i))
        ⊎ IsForwarded h (lines.Msi vm addr value) g i) }
    ensures write { (h : History) (vm vcpu : ℕ) (op : Op) (g : Vcpu) (i : ℕ)
        → has_machine h ≡ true → (guest_file h g).pending i ≡ false
        → (guest_file (after h (lines.GuestCsr vm vcpu Reg op)) g).pending i ≡ true
        → (refusal h (lines.GuestCsr vm vcpu Reg op) ≡ None)
        × (((vcpu_of vm vcpu ≡ g)
        × (eip_said (greatest_identity_of h) (register_of (guest_select h g)) op i ≡ Ask))
        ⊎ IsForwarded h (lines.GuestCsr vm vcpu Reg op) g i) }
    ensures claim { (h : History) (vm vcpu : ℕ) (op : Op) (g : Vcpu) (i : ℕ)
        → has_machine h ≡ true → (guest_file h g).pending i ≡ false
        → (guest_file (after h (lines.GuestCsr vm vcpu Topei op)) g).pending i ≡ true
        → IsForwarded h (lines.GuestCsr vm vcpu Topei op) g i }
    ensures wire { (h : History) (source : ℕ) (level : Bool) (g : Vcpu) (i : ℕ)
        → has_machine h ≡ true → (guest_file h g).pending i ≡ false
        → (guest_file (after h (lines.Wire source level)) g).pending i ≡ true
        → (refusal h (lines.Wire source level) ≡ None)
        × IsForwarded h (lines.Wire source level) g i }
    ensures store { (h : History) (addr value : ℕ) (g : Vcpu) (i : ℕ) → has_machine h ≡ true
        → (guest_file h g).pending i ≡ false
        → (guest_file (after h (lines.Store addr value)) g).pending i ≡ true
        → (refusal h (lines.Store addr value) ≡ None)
        × IsForwarded h (lines.Store addr value) g i }
{
    none_comes_unasked_where_sources_are_passed();
}

/// What becomes pending within a step of a move was forwarded, or asked for by a store in flight of
/// the VM, and the step is the fence; within a whole leave too, whose fence is among its steps. No
/// store in flight lands within a line of a wire.
pub fn what_comes_within_a_move()
    ensures step { (h : History) (x g : Vcpu) (i : ℕ) → has_machine h ≡ true
        → (guest_file h g).pending i ≡ false
        → (guest_file (after h (lines.Step x.vm x.vcpu)) g).pending i ≡ true
        → (refusal h (lines.Step x.vm x.vcpu) ≡ None)
        × (IsForwarded h (lines.Step x.vm x.vcpu) g i
        ⊎ ((is_at_fence (home h x) ≡ true)
        × (list_any (λ s. is_vcpu g (sent_to x.vm s)
        && names (requested (greatest_identity_of h) (s.addr % PAGE) s.value) i)
        (flight h x.vm) ≡ true))) }
    ensures leave { (h : History) (x g : Vcpu) (i : ℕ) → has_machine h ≡ true
        → (guest_file h g).pending i ≡ false
        → (guest_file (after h (lines.Move x.vm x.vcpu Leave)) g).pending i ≡ true
        → (refusal h (lines.Move x.vm x.vcpu Leave) ≡ None)
        × (IsForwarded h (lines.Move x.vm x.vcpu Leave) g i
        ⊎ (list_any (λ s. is_vcpu g (sent_to x.vm s)
        && names (requested (greatest_identity_of h) (s.addr % PAGE) s.value) i)
        (flight h x.vm) ≡ true)) }
    ensures wire { (h : History) (source : ℕ) (level : Bool) (g : Vcpu) (i : ℕ)
        → has_machine h ≡ true → (guest_file h g).pending i ≡ false
        → (guest_file (after h (lines.Wire source level)) g).pending i ≡ true
        → IsForwarded h (lines.Wire source level) g i }
{
    none_comes_unasked_where_sources_are_passed();
}

/// A source that is forwarded within an accepted line is pending after it where it is passed to.
pub fn what_is_forwarded_comes()
    ensures { (h : History) (line : Line) (msi : Msi) (p : ℕ) → IsHistory h
        → has_machine h ≡ true → refusal h line ≡ None → Contains (msis_sent_by h line) msi
        → passed_by h msi.source ≡ Some p
        → (guest_file (after h line) (nth_pass h p).to).pending (nth_pass h p).identity ≡ true }
{
    none_comes_unasked_where_sources_are_passed();
}

/// One that comes by a wire, of a script that passes its source.
pub fn one_comes_by_a_wire()
    ensures unasked { (p : ℕ) × ((nth_pass (history_of PASSED.now) p).identity ≡ 5) }
    ensures every_line { (p : ℕ) × ((nth_pass (history_of PASSED.now) p).identity ≡ 5) }
    ensures forwarded { (guest_file (after (history_of PASSED.now) (lines.Wire 1 true))
        (vcpu_of 0 0)).pending 5 ≡ true }
{
    none_comes_unasked_where_sources_are_passed();
}

/// One that comes at the fence of a leave, of a store that was in flight.
pub fn one_comes_at_a_fence()
    ensures { is_at_fence (home in_flight (vcpu_of 0 0)) ≡ true }
{
    none_comes_unasked_where_sources_are_passed();
}
