//! What is said to a virtual hart, and what it is and is answered by that.

ghost use Rattle.std.specs.Prelude.{◌≡◌, ℕ, Bool, true, false, nat_eq, if◌then◌else◌, ◌∷◌, Some, None};
ghost use Rattle.aia_regs.specs.declared.access.Csr.{Csr};
ghost use Rattle.aia_regs.specs.declared.access.Op.{Op};
ghost use Rattle.aia_regs.specs.declared.access.Op.TheVariants.{Read};
ghost use Rattle.aia_vcpu.specs.Vms.{Vcpu, vcpu_of};
ghost use Rattle.aia_model.specs.declared.answer.Answer.TheVariants.{Wide};
ghost use Rattle.aia_model.specs.declared.line.Line.TheVariants as lines;
ghost use Rattle.aia_model.specs.declared.msi.Msi.{Msi};
ghost use Rattle.aia_model.specs.declared.part.Part.{Part};
ghost use Rattle.aia_model.specs.Event.{History, has_machine};
ghost use Rattle.aia_model.specs.Event.Event.{Accepted, Began, Stepped, Delivered, Landed, Relayed};
ghost use Rattle.aia_model.specs.Move.{WantedMove};
ghost use Rattle.aia_model.specs.Vms.{has_vcpu};
ghost use Rattle.aia_model.specs.HomeOf.{home};
ghost use Rattle.aia_model.specs.MajorOf.{majors_of};
ghost use Rattle.aia_model.specs.Passes.{nth_pass, passed_by};
ghost use Rattle.aia_model.specs.GuestFile.{guest_file, guest_select};
ghost use Rattle.aia_model.specs.StateOf.{state_of};
ghost use Rattle.aia_model.specs.Refusal.{serves};
ghost use Rattle.aia_model.specs.Answer.{answer};
ghost use Rattle.aia_isolation.specs.Said.{Said, said_by, said, without_reads};
ghost use Rattle.aia_isolation.specs.Said.Said.{Asked, Did};
ghost use Rattle.aia_isolation.specs.Guest.{guest_by, shown};
ghost use Rattle.aia_isolation.specs.Replies.{replies, replies_by, purged};

use aia_isolation::guests::{
    a_guest_is_answered_by_what_was_said_to_it, a_guest_is_what_was_said_to_it,
    only_its_vm_and_its_hypervisor_speak_to_a_guest,
    what_does_not_speak_to_a_guest_may_be_left_out,
};

/// Who speaks to a virtual hart, by the forms of events; no move does, and no wire.
pub fn who_speaks_to_a_guest()
    ensures msi { (past : History) (vm addr value : ℕ) (g : Vcpu) (word : Said)
        → said_by g past (Accepted (lines.Msi vm addr value)) ≡ Some word → vm ≡ g.vm }
    ensures ipi { (past : History) (vm vcpu to value : ℕ) (g : Vcpu) (word : Said)
        → said_by g past (Accepted (lines.Ipi vm vcpu to value)) ≡ Some word → vm ≡ g.vm }
    ensures access { (past : History) (vm vcpu : ℕ) (csr : Csr) (op : Op) (g : Vcpu)
        (word : Said) → said_by g past (Accepted (lines.GuestCsr vm vcpu csr op)) ≡ Some word
        → vcpu_of vm vcpu ≡ g }
    ensures inject { (past : History) (vm vcpu bit : ℕ) (level : Bool) (g : Vcpu) (word : Said)
        → said_by g past (Accepted (lines.Inject vm vcpu bit level)) ≡ Some word
        → vcpu_of vm vcpu ≡ g }
    ensures control { (past : History) (vm vcpu value : ℕ) (g : Vcpu) (word : Said)
        → said_by g past (Accepted (lines.Hvictl vm vcpu value)) ≡ Some word
        → vcpu_of vm vcpu ≡ g }
    ensures priorities { (past : History) (vm vcpu value : ℕ) (g : Vcpu) (word : Said)
        → said_by g past (Accepted (lines.Hviprio vm vcpu value)) ≡ Some word
        → vcpu_of vm vcpu ≡ g }
    ensures load { (past : History) (vm vcpu : ℕ) (part : Part) (g : Vcpu) (word : Said)
        → said_by g past (Accepted (lines.LoadPart vm vcpu part)) ≡ Some word
        → vcpu_of vm vcpu ≡ g }
    ensures landed { (past : History) (vm k : ℕ) (g : Vcpu) (word : Said)
        → said_by g past (Landed vm k) ≡ Some word → vm ≡ g.vm }
    ensures delivered { (past : History) (msi : Msi) (g : Vcpu) (word : Said)
        → said_by g past (Delivered msi) ≡ Some word
        → (p : ℕ) × (passed_by past msi.source ≡ Some p) × ((nth_pass past p).to ≡ g) }
    ensures relayed { (past : History) (p : ℕ) (g : Vcpu) (word : Said)
        → said_by g past (Relayed p) ≡ Some word → (nth_pass past p).to ≡ g }
    ensures began { (past : History) (move : WantedMove) (g : Vcpu) (word : Said)
        → ¬ (said_by g past (Began move) ≡ Some word) }
    ensures stepped { (past : History) (x g : Vcpu) (word : Said)
        → ¬ (said_by g past (Stepped x) ≡ Some word) }
    ensures wire { (past : History) (source : ℕ) (level : Bool) (g : Vcpu) (word : Said)
        → ¬ (said_by g past (Accepted (lines.Wire source level)) ≡ Some word) }
{
    only_its_vm_and_its_hypervisor_speak_to_a_guest();
}

/// What a virtual hart is, by what was said to it, its own reads aside.
pub fn what_a_guest_is()
    ensures file { (h : History) (g : Vcpu) → guest_file h g ≡ (guest_by (said h g)).file }
    ensures select { (h : History) (g : Vcpu) → guest_select h g ≡ (guest_by (said h g)).select }
    ensures majors { (h : History) (g : Vcpu) → majors_of h g ≡ (guest_by (said h g)).majors }
    ensures asked { (h k : History) (g x : Vcpu) (i j : ℕ) → said h g ≡ Asked i ∷ said k x
        → (guest_file h g).pending j
        ≡ (if nat_eq i j then true else (guest_file k x).pending j) }
    ensures two_runs { (h k : History) (g x : Vcpu)
        → without_reads (said h g) ≡ without_reads (said k x)
        → (guest_file h g ≡ guest_file k x) × (guest_select h g ≡ guest_select k x)
        × (majors_of h g ≡ majors_of k x) }
    ensures reads { (h k : History) (g x : Vcpu) (csr : Csr)
        → said h g ≡ Did csr Read ∷ said k x → guest_file h g ≡ guest_file k x }
{
    a_guest_is_what_was_said_to_it();
}

/// What a virtual hart is answered by what was said to it, each instruction by what it was before.
pub fn what_a_guest_is_answered()
    ensures automaton { (h : History) (g : Vcpu) → replies h g ≡ replies_by (said h g) }
    ensures read { (h k : History) (g x : Vcpu) (csr : Csr) → said h g ≡ Did csr Read ∷ said k x
        → replies h g ≡ Wide (shown (guest_by (said k x)) csr) ∷ replies k x }
    ensures two_runs { (h k : History) (g x : Vcpu) → said h g ≡ said k x
        → replies h g ≡ replies k x }
    ensures next { (h k : History) (g x : Vcpu) (csr : Csr) (op : Op)
        → without_reads (said h g) ≡ without_reads (said k x)
        → has_machine h ≡ true → has_vcpu h g ≡ true → serves (home h g) csr ≡ true
        → has_machine k ≡ true → has_vcpu k x ≡ true → serves (home k x) csr ≡ true
        → answer h (lines.GuestCsr g.vm g.vcpu csr op)
        ≡ answer k (lines.GuestCsr x.vm x.vcpu csr op) }
{
    a_guest_is_answered_by_what_was_said_to_it();
}

/// What may be left out of a history, as the beginning of a move, a wire, and stores of other VMs
/// that are sent and land.
pub fn what_may_be_left_out()
    ensures said { (h : History) (g : Vcpu) → said (purged h g) g ≡ said h g }
    ensures guest { (h : History) (g : Vcpu) → guest_file (purged h g) g ≡ guest_file h g }
    ensures replies { (h : History) (g : Vcpu) → replies (purged h g) g ≡ replies h g }
    ensures begun { (h : History) (move : WantedMove) (g : Vcpu)
        → state_of (purged h g) g ≡ state_of (Began move ∷ h) g }
    ensures wired { (h : History) (source : ℕ) (level : Bool) (g : Vcpu)
        → replies (purged h g) g ≡ replies (Accepted (lines.Wire source level) ∷ h) g }
    ensures sent { (h : History) (vm addr value : ℕ) (g : Vcpu) → nat_eq vm g.vm ≡ false
        → guest_file (purged h g) g ≡ guest_file (Accepted (lines.Send vm addr value) ∷ h) g }
    ensures landed { (h : History) (vm k : ℕ) (g : Vcpu) → nat_eq vm g.vm ≡ false
        → said_by g h (Landed vm k) ≡ None
        → guest_file (purged h g) g ≡ guest_file (Landed vm k ∷ h) g }
{
    what_does_not_speak_to_a_guest_may_be_left_out();
}
