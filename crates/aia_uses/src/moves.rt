//! Moves, stores in flight, and lines that do not speak to a virtual hart.

ghost use Rattle.std.specs.Prelude.{◌≡◌, ℕ, ◌%◌, Bool, true, false, not, ◌&&◌, nat_eq, None};
ghost use Rattle.std.specs.List.{list_any};
ghost use Rattle.std.specs.Option.{option_map_or};
ghost use Rattle.aia_regs.specs.declared.address_map.TheConstants.{PAGE};
ghost use Rattle.aia_regs.specs.declared.access.Csr.{Csr};
ghost use Rattle.aia_regs.specs.declared.access.Op.{Op};
ghost use Rattle.aia_regs.specs.Request.{requested};
ghost use Rattle.aia_regs.specs.BitUpdate.{names};
ghost use Rattle.aia_vcpu.specs.Vms.{Vcpu, vcpu_of, is_vcpu};
ghost use Rattle.aia_vcpu.specs.Routes.{is_at_fence};
ghost use Rattle.aia_model.specs.declared.line.Line.{Line};
ghost use Rattle.aia_model.specs.declared.line.Line.TheVariants as lines;
ghost use Rattle.aia_model.specs.declared.msi.Msi.{Msi};
ghost use Rattle.aia_model.specs.declared.part.Part.{Part};
ghost use Rattle.aia_model.specs.declared.want.Want.TheVariants.{Leave};
ghost use Rattle.aia_model.specs.Event.{History, has_machine, greatest_identity_of};
ghost use Rattle.aia_model.specs.Flight.{Sending, flight, flying};
ghost use Rattle.aia_model.specs.Forms.{vm_of};
ghost use Rattle.aia_model.specs.Passes.{nth_pass, passed_by};
ghost use Rattle.aia_model.specs.Sent.{msis_sent_by};
ghost use Rattle.aia_model.specs.HomeOf.{home};
ghost use Rattle.aia_model.specs.MajorOf.{majors_of};
ghost use Rattle.aia_model.specs.GuestFile.{named_by, sent_to, guest_file, guest_select};
ghost use Rattle.aia_model.specs.Refusal.{refusal};
ghost use Rattle.aia_model.specs.Answer.{after, line_taken};
ghost use Rattle.aia_uses.specs.Worked.{asked, in_flight, moving};

use aia_laws::guests::{
    no_move_changes_a_guest, only_what_speaks_to_a_guest_changes_its_file,
    stores_in_flight_ask_within_a_move,
};

/// The file of a virtual hart is as before after each line about moves, if no store in flight to it
/// lands within it; all else that it is always stays.
pub fn what_stays_within_a_move()
    ensures begun { (h : History) (vm vcpu : ℕ) (g : Vcpu)
        → guest_file (after h (lines.Begin vm vcpu Leave)) g ≡ guest_file h g }
    ensures whole { (h : History) (vm vcpu : ℕ) (g : Vcpu)
        → list_any (λ s. is_vcpu g (sent_to vm s)) (flight h vm) ≡ false
        → guest_file (after h (lines.Move vm vcpu Leave)) g ≡ guest_file h g }
    ensures step { (h : History) (vm vcpu : ℕ) (g : Vcpu)
        → (is_at_fence (home h (vcpu_of vm vcpu))
        && list_any (λ s. is_vcpu g (sent_to vm s)) (flight h vm)) ≡ false
        → guest_file (after h (lines.Step vm vcpu)) g ≡ guest_file h g }
    ensures land { (h : History) (vm k : ℕ) (g : Vcpu)
        → option_map_or (λ s. is_vcpu g (sent_to vm s)) (flying h vm k) false ≡ false
        → guest_file (after h (lines.Land vm k)) g ≡ guest_file h g }
    ensures rest { (h : History) (vm vcpu : ℕ) (g : Vcpu)
        → (guest_select (after h (lines.Step vm vcpu)) g ≡ guest_select h g)
        × (majors_of (after h (lines.Step vm vcpu)) g ≡ majors_of h g)
        × ((guest_file (after h (lines.Step vm vcpu)) g).n ≡ (guest_file h g).n)
        × ((guest_file (after h (lines.Step vm vcpu)) g).enabled ≡ (guest_file h g).enabled)
        × ((guest_file (after h (lines.Step vm vcpu)) g).threshold ≡ (guest_file h g).threshold)
        × ((guest_file (after h (lines.Step vm vcpu)) g).delivery ≡ (guest_file h g).delivery) }
    ensures kept { (guest_file (after moving (lines.Step 0 0)) (vcpu_of 0 0)).pending 1 ≡ true }
    ensures still_enabled { (guest_file (after moving (lines.Step 0 0)) (vcpu_of 0 0)).enabled 1
        ≡ true }
{
    no_move_changes_a_guest();
}

/// A line that does not speak to a virtual hart leaves its file and its select number, unless it
/// forwards a source that is passed to it.
pub fn what_does_not_speak_to_a_guest()
    ensures msi { (h : History) (vm addr value : ℕ) (g : Vcpu) → has_machine h ≡ true
        → is_vcpu g (named_by h vm addr) ≡ false
        → list_any (λ (msi : Msi). option_map_or
        (λ p. is_vcpu g (nth_pass (line_taken h (lines.Msi vm addr value)) p).to)
        (passed_by (line_taken h (lines.Msi vm addr value)) msi.source) false)
        (msis_sent_by h (lines.Msi vm addr value)) ≡ false
        → (guest_file (after h (lines.Msi vm addr value)) g ≡ guest_file h g)
        × (guest_select (after h (lines.Msi vm addr value)) g ≡ guest_select h g) }
    ensures ipi { (h : History) (vm vcpu to value : ℕ) (g : Vcpu) → has_machine h ≡ true
        → is_vcpu g (vcpu_of vm to) ≡ false
        → list_any (λ (msi : Msi). option_map_or
        (λ p. is_vcpu g (nth_pass (line_taken h (lines.Ipi vm vcpu to value)) p).to)
        (passed_by (line_taken h (lines.Ipi vm vcpu to value)) msi.source) false)
        (msis_sent_by h (lines.Ipi vm vcpu to value)) ≡ false
        → guest_file (after h (lines.Ipi vm vcpu to value)) g ≡ guest_file h g }
    ensures access { (h : History) (vm vcpu : ℕ) (csr : Csr) (op : Op) (g : Vcpu)
        → has_machine h ≡ true → is_vcpu g (vcpu_of vm vcpu) ≡ false
        → list_any (λ (msi : Msi). option_map_or
        (λ p. is_vcpu g (nth_pass (line_taken h (lines.GuestCsr vm vcpu csr op)) p).to)
        (passed_by (line_taken h (lines.GuestCsr vm vcpu csr op)) msi.source) false)
        (msis_sent_by h (lines.GuestCsr vm vcpu csr op)) ≡ false
        → guest_file (after h (lines.GuestCsr vm vcpu csr op)) g ≡ guest_file h g }
    ensures load { (h : History) (vm vcpu : ℕ) (part : Part) (g : Vcpu)
        → has_machine h ≡ true → is_vcpu g (vcpu_of vm vcpu) ≡ false
        → list_any (λ (msi : Msi). option_map_or
        (λ p. is_vcpu g (nth_pass (line_taken h (lines.LoadPart vm vcpu part)) p).to)
        (passed_by (line_taken h (lines.LoadPart vm vcpu part)) msi.source) false)
        (msis_sent_by h (lines.LoadPart vm vcpu part)) ≡ false
        → guest_file (after h (lines.LoadPart vm vcpu part)) g ≡ guest_file h g }
    ensures wire { (h : History) (source : ℕ) (level : Bool) (g : Vcpu) → has_machine h ≡ true
        → list_any (λ (msi : Msi). option_map_or
        (λ p. is_vcpu g (nth_pass (line_taken h (lines.Wire source level)) p).to)
        (passed_by (line_taken h (lines.Wire source level)) msi.source) false)
        (msis_sent_by h (lines.Wire source level)) ≡ false
        → guest_file (after h (lines.Wire source level)) g ≡ guest_file h g }
    ensures other_vms { (h : History) (line : Line) (g : Vcpu) → has_machine h ≡ true
        → option_map_or (λ vm. not (nat_eq vm g.vm)) (vm_of line) false ≡ true
        → (guest_file (after h line) g ≡ guest_file h g)
        × (guest_select (after h line) g ≡ guest_select h g) }
    ensures wired { (guest_file (after asked (lines.Wire 1 true)) (vcpu_of 0 0)).pending 1 ≡ true }
    ensures others { (guest_file (after asked (lines.Msi 1 0x28000000 2)) (vcpu_of 0 0)).pending 1
        ≡ true }
{
    only_what_speaks_to_a_guest_changes_its_file();
}

/// What stores in flight ask for becomes pending within a step that is the fence, and within a
/// whole move; nothing else does, and what is pending stays so.
pub fn what_lands_within_a_move()
    ensures asked_at_fence { (h : History) (vm vcpu : ℕ) (g : Vcpu) (i : ℕ)
        → refusal h (lines.Step vm vcpu) ≡ None
        → is_at_fence (home h (vcpu_of vm vcpu)) ≡ true
        → list_any (λ (s : Sending). is_vcpu g (sent_to vm s)
        && names (requested (greatest_identity_of h) (s.addr % PAGE) s.value) i) (flight h vm)
        ≡ true
        → (guest_file (after h (lines.Step vm vcpu)) g).pending i ≡ true }
    ensures asked_by_a_move { (h : History) (vm vcpu : ℕ) (g : Vcpu) (i : ℕ)
        → refusal h (lines.Move vm vcpu Leave) ≡ None
        → list_any (λ (s : Sending). is_vcpu g (sent_to vm s)
        && names (requested (greatest_identity_of h) (s.addr % PAGE) s.value) i) (flight h vm)
        ≡ true
        → (guest_file (after h (lines.Move vm vcpu Leave)) g).pending i ≡ true }
    ensures stays_in_a_step { (h : History) (vm vcpu : ℕ) (g : Vcpu) (i : ℕ)
        → (guest_file h g).pending i ≡ true
        → (guest_file (after h (lines.Step vm vcpu)) g).pending i ≡ true }
    ensures stays_in_a_move { (h : History) (vm vcpu : ℕ) (g : Vcpu) (i : ℕ)
        → (guest_file h g).pending i ≡ true
        → (guest_file (after h (lines.Move vm vcpu Leave)) g).pending i ≡ true }
    ensures unasked_in_a_step { (h : History) (vm vcpu : ℕ) (g : Vcpu) (i : ℕ)
        → (guest_file h g).pending i ≡ false
        → (guest_file (after h (lines.Step vm vcpu)) g).pending i ≡ true
        → (refusal h (lines.Step vm vcpu) ≡ None)
        × (is_at_fence (home h (vcpu_of vm vcpu)) ≡ true)
        × (list_any (λ (s : Sending). is_vcpu g (sent_to vm s)
        && names (requested (greatest_identity_of h) (s.addr % PAGE) s.value) i) (flight h vm)
        ≡ true) }
    ensures unasked_in_a_move { (h : History) (vm vcpu : ℕ) (g : Vcpu) (i : ℕ)
        → (guest_file h g).pending i ≡ false
        → (guest_file (after h (lines.Move vm vcpu Leave)) g).pending i ≡ true
        → (refusal h (lines.Move vm vcpu Leave) ≡ None)
        × (list_any (λ (s : Sending). is_vcpu g (sent_to vm s)
        && names (requested (greatest_identity_of h) (s.addr % PAGE) s.value) i) (flight h vm)
        ≡ true) }
{
    stores_in_flight_ask_within_a_move();
}

/// A store in flight lands within the fence of a leave.
pub fn one_lands_at_the_fence()
    ensures asked { (guest_file (after in_flight (lines.Step 0 0)) (vcpu_of 0 0)).pending 1 ≡ true }
    ensures stays { (guest_file (after moving (lines.Step 0 0)) (vcpu_of 0 0)).pending 1 ≡ true }
    ensures unasked { is_at_fence (home in_flight (vcpu_of 0 0)) ≡ true }
{
    stores_in_flight_ask_within_a_move();
}
