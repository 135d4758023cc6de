//! What a VM can do at the files of the host.

ghost use Rattle.std.specs.Prelude.{◌≡◌, ◌∷◌, ℕ, true, None};
ghost use Rattle.aia_regs.specs.declared.access.Csr.{Csr};
ghost use Rattle.aia_regs.specs.declared.access.Op.{Op};
ghost use Rattle.aia_vcpu.specs.Vms.{Vcpu, notice_identity};
ghost use Rattle.aia_model.specs.declared.line.Line.TheVariants as lines;
ghost use Rattle.aia_model.specs.declared.part.Part.{Part};
ghost use Rattle.aia_model.specs.Event.{Event, History};
ghost use Rattle.aia_model.specs.Event.Event.{Accepted, Stepped, Landed};
ghost use Rattle.aia_model.specs.Histories.{IsHistory};
ghost use Rattle.aia_model.specs.Vms.{vms_of, has_vcpu};
ghost use Rattle.aia_model.specs.FileAfter.FileDeed.{Rests};
ghost use Rattle.aia_model.specs.FileOf.{FileName, deed_at, select_of, file_of};
ghost use Rattle.aia_model.specs.Sent.{acts_of};
ghost use Rattle.aia_model.specs.Refusal.{refusal};
ghost use Rattle.aia_isolation.specs.Reach.{deeds_of, host_by};
ghost use Rattle.aia_uses.specs.Reached.{RestsOrTells};

use aia_isolation::hosts::{
    a_file_of_the_host_is_what_was_done_at_it, a_vm_reaches_the_host_by_its_notices_alone,
};

/// What a file of the host is, and its select number, by what was done at it.
pub fn what_a_host_file_is()
    ensures file { (h : History) (f : FileName) → file_of h f ≡ (host_by (deeds_of h f)).file }
    ensures select { (h : History) (f : FileName)
        → select_of h f ≡ (host_by (deeds_of h f)).select }
    ensures two_runs { (h k : History) (f x : FileName) → deeds_of h f ≡ deeds_of k x
        → (file_of h f ≡ file_of k x) × (select_of h f ≡ select_of k x) }
    ensures undone { (h : History) (event : Event) (f : FileName) → deed_at f h event ≡ Rests
        → file_of (event ∷ h) f ≡ file_of h f }
{
    a_file_of_the_host_is_what_was_done_at_it();
}

/// What each form of a VM's doing does there: nothing, or it asks for the notice identity of one of
/// its virtual harts at that one's notice file.
pub fn what_a_vm_reaches()
    ensures msi { (past : History) (v addr value : ℕ) (f : FileName)
        → refusal past (lines.Msi v addr value) ≡ None
        → RestsOrTells past v f (deed_at f past (Accepted (lines.Msi v addr value))) }
    ensures send { (past : History) (v addr value : ℕ) (f : FileName)
        → refusal past (lines.Send v addr value) ≡ None
        → RestsOrTells past v f (deed_at f past (Accepted (lines.Send v addr value))) }
    ensures land { (past : History) (v k : ℕ) (f : FileName)
        → refusal past (lines.Land v k) ≡ None
        → RestsOrTells past v f (deed_at f past (Accepted (lines.Land v k))) }
    ensures ipi { (past : History) (v vcpu to value : ℕ) (f : FileName)
        → refusal past (lines.Ipi v vcpu to value) ≡ None
        → RestsOrTells past v f (deed_at f past (Accepted (lines.Ipi v vcpu to value))) }
    ensures access { (past : History) (v vcpu : ℕ) (csr : Csr) (op : Op) (f : FileName)
        → refusal past (lines.GuestCsr v vcpu csr op) ≡ None
        → RestsOrTells past v f (deed_at f past (Accepted (lines.GuestCsr v vcpu csr op))) }
    ensures moves { (past : History) (g : Vcpu) (f : FileName) → has_vcpu past g ≡ true
        → RestsOrTells past g.vm f (deed_at f past (Stepped g)) }
    ensures exits { (past : History) (g : Vcpu) (f : FileName) → has_vcpu past g ≡ true
        → RestsOrTells past g.vm f (deed_at f past (Accepted (lines.Exit g.vm g.vcpu))) }
    ensures loads { (past : History) (g : Vcpu) (part : Part) (f : FileName)
        → has_vcpu past g ≡ true
        → RestsOrTells past g.vm f
        (deed_at f past (Accepted (lines.LoadPart g.vm g.vcpu part))) }
    ensures landings { (past : History) (v k : ℕ) (f : FileName) → IsHistory past
        → RestsOrTells past v f (deed_at f past (Landed v k)) }
    ensures own { (h : History) (g x : Vcpu) → has_vcpu h g ≡ true → has_vcpu h x ≡ true
        → notice_identity (vms_of h) g ≡ notice_identity (vms_of h) x → g ≡ x }
    ensures aplic { (past : History) (v vcpu : ℕ) (csr : Csr) (op : Op)
        → acts_of (Accepted (lines.GuestCsr v vcpu csr op) ∷ past) ≡ acts_of past }
    ensures landed { (past : History) (v k : ℕ) → acts_of (Landed v k ∷ past) ≡ acts_of past }
{
    a_vm_reaches_the_host_by_its_notices_alone();
}
