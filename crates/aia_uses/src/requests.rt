//! Requests at a virtual hart.

ghost use Rattle.std.specs.Prelude.{◌≡◌, ℕ, ◌*◌, ◌%◌, true, false, None, Some};
ghost use Rattle.std.specs.List.{list_any};
ghost use Rattle.std.specs.Option.{option_map_or};
ghost use Rattle.aia_regs.specs.declared.address_map.TheConstants.{PAGE};
ghost use Rattle.aia_regs.specs.declared.access.Csr.TheVariants.{Topei, Reg, Select};
ghost use Rattle.aia_regs.specs.declared.access.Op.{Op};
ghost use Rattle.aia_regs.specs.declared.access.Op.TheVariants as ops;
ghost use Rattle.aia_regs.specs.declared.file_registers.FileReg.TheVariants.{Pending};
ghost use Rattle.aia_regs.specs.Operations.{is_writing};
ghost use Rattle.aia_regs.specs.FileRegisters.{register_of, eip_said};
ghost use Rattle.aia_regs.specs.Request.{requested};
ghost use Rattle.aia_regs.specs.BitUpdate.BitUpdate.{Ask, Clear};
ghost use Rattle.aia_file.specs.InterruptFile.{top_of};
ghost use Rattle.aia_vcpu.specs.Vms.{Vcpu, vcpu_of, is_vcpu};
ghost use Rattle.aia_model.specs.declared.line.Line.{Line};
ghost use Rattle.aia_model.specs.declared.line.Line.TheVariants as lines;
ghost use Rattle.aia_model.specs.declared.msi.Msi.{Msi};
ghost use Rattle.aia_model.specs.declared.part.Part.TheVariants as parts;
ghost use Rattle.aia_model.specs.Event.{History, has_machine, greatest_identity_of};
ghost use Rattle.aia_model.specs.Flight.{Sending, flying};
ghost use Rattle.aia_model.specs.Passes.{nth_pass, passed_by};
ghost use Rattle.aia_model.specs.Sent.{msis_sent_by};
ghost use Rattle.aia_model.specs.GuestFile.{named_by, sent_to, guest_file, guest_select};
ghost use Rattle.aia_model.specs.Refusal.{refusal};
ghost use Rattle.aia_model.specs.Answer.{after, line_taken};
ghost use Rattle.aia_laws.specs.Requests.{Clears};
ghost use Rattle.aia_uses.specs.Worked.{enabled, asked, selected};

use aia_laws::guests::{a_claim_takes_the_least_identity, a_request_stays_until_it_is_cleared};

/// What a line of each form asks for is pending after it.
pub fn what_is_asked_for_is_pending()
    ensures msi { (h : History) (vm addr value : ℕ) (g : Vcpu) (i : ℕ) → has_machine h ≡ true
        → refusal h (lines.Msi vm addr value) ≡ None → named_by h vm addr ≡ g
        → requested (greatest_identity_of h) (addr % PAGE) value ≡ Some i
        → (guest_file (after h (lines.Msi vm addr value)) g).pending i ≡ true }
    ensures ipi { (h : History) (vm vcpu to value : ℕ) (i : ℕ) → has_machine h ≡ true
        → refusal h (lines.Ipi vm vcpu to value) ≡ None
        → requested (greatest_identity_of h) 0 value ≡ Some i
        → (guest_file (after h (lines.Ipi vm vcpu to value)) (vcpu_of vm to)).pending i ≡ true }
    ensures write { (h : History) (g : Vcpu) (op : Op) (i : ℕ) → has_machine h ≡ true
        → refusal h (lines.GuestCsr g.vm g.vcpu Reg op) ≡ None
        → eip_said (greatest_identity_of h) (register_of (guest_select h g)) op i ≡ Ask
        → (guest_file (after h (lines.GuestCsr g.vm g.vcpu Reg op)) g).pending i ≡ true }
    ensures land { (h : History) (vm k : ℕ) (s : Sending) (i : ℕ) → has_machine h ≡ true
        → refusal h (lines.Land vm k) ≡ None → flying h vm k ≡ Some s
        → requested (greatest_identity_of h) (s.addr % PAGE) s.value ≡ Some i
        → (guest_file (after h (lines.Land vm k)) (sent_to vm s)).pending i ≡ true }
    ensures load { (h : History) (g : Vcpu) (w pending enable : ℕ) (i : ℕ) → has_machine h ≡ true
        → refusal h (lines.LoadPart g.vm g.vcpu (parts.Word w pending enable)) ≡ None
        → eip_said (greatest_identity_of h) (Pending (2 * w)) (ops.Set pending) i ≡ Ask
        → (guest_file (after h (lines.LoadPart g.vm g.vcpu (parts.Word w pending enable)))
        g).pending i ≡ true }
{
    a_request_stays_until_it_is_cleared();
}

/// What becomes pending within a line of each form, the line asks for, unless it forwards a source
/// that is passed to the virtual hart.
pub fn what_becomes_pending_was_asked_for()
    ensures msi { (h : History) (vm addr value : ℕ) (g : Vcpu) (i : ℕ) → has_machine h ≡ true
        → list_any (λ (msi : Msi). option_map_or
        (λ p. is_vcpu g (nth_pass (line_taken h (lines.Msi vm addr value)) p).to)
        (passed_by (line_taken h (lines.Msi vm addr value)) msi.source) false)
        (msis_sent_by h (lines.Msi vm addr value)) ≡ false
        → (guest_file h g).pending i ≡ false
        → (guest_file (after h (lines.Msi vm addr value)) g).pending i ≡ true
        → (refusal h (lines.Msi vm addr value) ≡ None) × (named_by h vm addr ≡ g)
        × (requested (greatest_identity_of h) (addr % PAGE) value ≡ Some i) }
    ensures ipi { (h : History) (vm vcpu to value : ℕ) (g : Vcpu) (i : ℕ) → has_machine h ≡ true
        → list_any (λ (msi : Msi). option_map_or
        (λ p. is_vcpu g (nth_pass (line_taken h (lines.Ipi vm vcpu to value)) p).to)
        (passed_by (line_taken h (lines.Ipi vm vcpu to value)) msi.source) false)
        (msis_sent_by h (lines.Ipi vm vcpu to value)) ≡ false
        → (guest_file h g).pending i ≡ false
        → (guest_file (after h (lines.Ipi vm vcpu to value)) g).pending i ≡ true
        → (vcpu_of vm to ≡ g) × (requested (greatest_identity_of h) 0 value ≡ Some i) }
    ensures write { (h : History) (vm vcpu : ℕ) (op : Op) (g : Vcpu) (i : ℕ)
        → has_machine h ≡ true
        → list_any (λ (msi : Msi). option_map_or
        (λ p. is_vcpu g (nth_pass (line_taken h (lines.GuestCsr vm vcpu Reg op)) p).to)
        (passed_by (line_taken h (lines.GuestCsr vm vcpu Reg op)) msi.source) false)
        (msis_sent_by h (lines.GuestCsr vm vcpu Reg op)) ≡ false
        → (guest_file h g).pending i ≡ false
        → (guest_file (after h (lines.GuestCsr vm vcpu Reg op)) g).pending i ≡ true
        → (vcpu_of vm vcpu ≡ g)
        × (eip_said (greatest_identity_of h) (register_of (guest_select h g)) op i ≡ Ask) }
    ensures land { (h : History) (vm k : ℕ) (g : Vcpu) (i : ℕ) → has_machine h ≡ true
        → list_any (λ (msi : Msi). option_map_or
        (λ p. is_vcpu g (nth_pass (line_taken h (lines.Land vm k)) p).to)
        (passed_by (line_taken h (lines.Land vm k)) msi.source) false)
        (msis_sent_by h (lines.Land vm k)) ≡ false
        → (guest_file h g).pending i ≡ false
        → (guest_file (after h (lines.Land vm k)) g).pending i ≡ true
        → (s : Sending) × (flying h vm k ≡ Some s) × (sent_to vm s ≡ g)
        × (requested (greatest_identity_of h) (s.addr % PAGE) s.value ≡ Some i) }
    ensures load { (h : History) (vm vcpu w pending enable : ℕ) (g : Vcpu) (i : ℕ)
        → has_machine h ≡ true
        → list_any (λ (msi : Msi). option_map_or (λ p. is_vcpu g
        (nth_pass (line_taken h (lines.LoadPart vm vcpu (parts.Word w pending enable))) p).to)
        (passed_by (line_taken h (lines.LoadPart vm vcpu (parts.Word w pending enable)))
        msi.source) false)
        (msis_sent_by h (lines.LoadPart vm vcpu (parts.Word w pending enable))) ≡ false
        → (guest_file h g).pending i ≡ false
        → (guest_file (after h (lines.LoadPart vm vcpu (parts.Word w pending enable))) g).pending
        i ≡ true
        → (vcpu_of vm vcpu ≡ g)
        × (eip_said (greatest_identity_of h) (Pending (2 * w)) (ops.Set pending) i ≡ Ask) }
    ensures claim { (h : History) (vm vcpu : ℕ) (op : Op) (g : Vcpu) (i : ℕ)
        → has_machine h ≡ true
        → list_any (λ (msi : Msi). option_map_or
        (λ p. is_vcpu g (nth_pass (line_taken h (lines.GuestCsr vm vcpu Topei op)) p).to)
        (passed_by (line_taken h (lines.GuestCsr vm vcpu Topei op)) msi.source) false)
        (msis_sent_by h (lines.GuestCsr vm vcpu Topei op)) ≡ false
        → (guest_file h g).pending i ≡ false
        → ¬ ((guest_file (after h (lines.GuestCsr vm vcpu Topei op)) g).pending i ≡ true) }
{
    a_request_stays_until_it_is_cleared();
}

/// What each form of a line clears.
pub fn what_is_cleared_was_claimed_or_written()
    ensures claim { (h : History) (vm vcpu : ℕ) (op : Op) (g : Vcpu) (i : ℕ)
        → has_machine h ≡ true → (guest_file h g).pending i ≡ true
        → (guest_file (after h (lines.GuestCsr vm vcpu Topei op)) g).pending i ≡ false
        → (refusal h (lines.GuestCsr vm vcpu Topei op) ≡ None) × (vcpu_of vm vcpu ≡ g)
        × (is_writing op ≡ true) × (top_of (guest_file h g) ≡ Some i) }
    ensures write { (h : History) (vm vcpu : ℕ) (op : Op) (g : Vcpu) (i : ℕ)
        → has_machine h ≡ true → (guest_file h g).pending i ≡ true
        → (guest_file (after h (lines.GuestCsr vm vcpu Reg op)) g).pending i ≡ false
        → (vcpu_of vm vcpu ≡ g)
        × (eip_said (greatest_identity_of h) (register_of (guest_select h g)) op i ≡ Clear) }
    ensures select { (h : History) (vm vcpu : ℕ) (op : Op) (g : Vcpu) (i : ℕ)
        → has_machine h ≡ true → (guest_file h g).pending i ≡ true
        → ¬ ((guest_file (after h (lines.GuestCsr vm vcpu Select op)) g).pending i ≡ false) }
    ensures store { (h : History) (vm addr value : ℕ) (g : Vcpu) (i : ℕ) → has_machine h ≡ true
        → (guest_file h g).pending i ≡ true
        → ¬ ((guest_file (after h (lines.Msi vm addr value)) g).pending i ≡ false) }
{
    a_request_stays_until_it_is_cleared();
}

/// One request, from the store that asks to the claim and to the write that clear it.
pub fn one_is_asked_for_and_cleared()
    ensures asked { (guest_file (after enabled (lines.Msi 0 0x28000000 1)) (vcpu_of 0 0)).pending 1
        ≡ true }
    ensures unasked { requested (greatest_identity_of enabled) (0x28000000 % PAGE) 1 ≡ Some 1 }
    ensures claimed { top_of (guest_file asked (vcpu_of 0 0)) ≡ Some 1 }
    ensures written { eip_said (greatest_identity_of selected)
        (register_of (guest_select selected (vcpu_of 0 0))) (ops.Clear 2) 1 ≡ Clear }
{
    a_request_stays_until_it_is_cleared();
}

/// What an accepted line clears is pending no more after it: the other way round, which the law
/// does not say.
pub fn what_a_line_clears_is_gone()
    ensures { (h : History) (line : Line) (g : Vcpu) (i : ℕ) → refusal h line ≡ None
        → Clears h line g i → (guest_file (after h line) g).pending i ≡ false }
{
    a_claim_takes_the_least_identity();
}
