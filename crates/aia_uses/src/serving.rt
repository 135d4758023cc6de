//! What a virtual hart reads, in a guest file and from memory.

ghost use Rattle.std.specs.Prelude.{◌≡◌, true, None};
ghost use Rattle.aia_word.specs.Top.{top_value};
ghost use Rattle.aia_regs.specs.declared.access.Csr.{Csr};
ghost use Rattle.aia_regs.specs.declared.access.Csr.TheVariants.{Select, Reg, Topei, Topi, Sip, Sie};
ghost use Rattle.aia_regs.specs.declared.access.Op.{Op};
ghost use Rattle.aia_regs.specs.declared.access.Op.TheVariants.{Read, Write};
ghost use Rattle.aia_regs.specs.FileRegisters.{register_of};
ghost use Rattle.aia_csr.specs.CsrAccess.{IsFileCsr};
ghost use Rattle.aia_file.specs.InterruptFile.{top_of, register_value};
ghost use Rattle.aia_vcpu.specs.Vms.{Vcpu, vcpu_of};
ghost use Rattle.aia_model.specs.declared.answer.Answer.TheVariants.{Wide};
ghost use Rattle.aia_model.specs.declared.line.Line.TheVariants.{GuestCsr, Enter, Exit};
ghost use Rattle.aia_model.specs.Event.{History, has_machine};
ghost use Rattle.aia_model.specs.Vms.{has_vcpu};
ghost use Rattle.aia_model.specs.HomeOf.{home};
ghost use Rattle.aia_model.specs.MajorOf.{majors_of, stopi_of, sip_of, sie_of};
ghost use Rattle.aia_model.specs.Refusal.{refusal, serves};
ghost use Rattle.aia_model.specs.GuestFile.{guest_file, guest_select};
ghost use Rattle.aia_model.specs.Answer.{after, answer};
ghost use Rattle.aia_uses.specs.Worked.{asked, parked_asked, entered};

use aia_laws::guests::{
    a_guest_reads_from_memory_what_it_would_in_a_file, a_guest_reads_what_is_its_own,
    running_from_memory_changes_no_guest,
};

/// What each CSR of a virtual hart reads.
pub fn what_each_csr_reads()
    ensures select { (h : History) (g : Vcpu) (op : Op)
        → refusal h (GuestCsr g.vm g.vcpu Select op) ≡ None
        → answer h (GuestCsr g.vm g.vcpu Select op) ≡ Wide (guest_select h g) }
    ensures reg { (h : History) (g : Vcpu) (op : Op)
        → refusal h (GuestCsr g.vm g.vcpu Reg op) ≡ None
        → answer h (GuestCsr g.vm g.vcpu Reg op)
        ≡ Wide (register_value (guest_file h g) (register_of (guest_select h g))) }
    ensures topei { (h : History) (g : Vcpu) (op : Op)
        → refusal h (GuestCsr g.vm g.vcpu Topei op) ≡ None
        → answer h (GuestCsr g.vm g.vcpu Topei op) ≡ Wide (top_value (top_of (guest_file h g))) }
    ensures topi { (h : History) (g : Vcpu) (op : Op)
        → refusal h (GuestCsr g.vm g.vcpu Topi op) ≡ None
        → answer h (GuestCsr g.vm g.vcpu Topi op) ≡ Wide (stopi_of h g) }
    ensures sip { (h : History) (g : Vcpu) (op : Op)
        → refusal h (GuestCsr g.vm g.vcpu Sip op) ≡ None
        → answer h (GuestCsr g.vm g.vcpu Sip op) ≡ Wide (sip_of h g) }
    ensures sie { (h : History) (g : Vcpu) (op : Op)
        → refusal h (GuestCsr g.vm g.vcpu Sie op) ≡ None
        → answer h (GuestCsr g.vm g.vcpu Sie op) ≡ Wide (sie_of h g) }
    ensures one { answer asked (GuestCsr 0 0 Topei Read) ≡ Wide 0x10001 }
{
    a_guest_reads_what_is_its_own();
}

/// A virtual hart that has one interrupt file and one select number after two histories, where it
/// runs after both, is answered alike.
pub fn what_is_served_alike_is_answered_alike()
    ensures answered { (h k : History) (g : Vcpu) (csr : Csr) (op : Op) → IsFileCsr csr
        → has_machine h ≡ true → has_vcpu h g ≡ true → serves (home h g) csr ≡ true
        → has_machine k ≡ true → has_vcpu k g ≡ true → serves (home k g) csr ≡ true
        → guest_file h g ≡ guest_file k g → guest_select h g ≡ guest_select k g
        → answer h (GuestCsr g.vm g.vcpu csr op) ≡ answer k (GuestCsr g.vm g.vcpu csr op) }
    ensures left { (h k : History) (g : Vcpu) (csr : Csr) (op : Op) → IsFileCsr csr
        → has_machine h ≡ true → has_vcpu h g ≡ true → serves (home h g) csr ≡ true
        → has_machine k ≡ true → has_vcpu k g ≡ true → serves (home k g) csr ≡ true
        → guest_file h g ≡ guest_file k g → guest_select h g ≡ guest_select k g
        → (guest_file (after h (GuestCsr g.vm g.vcpu csr op)) g
        ≡ guest_file (after k (GuestCsr g.vm g.vcpu csr op)) g)
        × (guest_select (after h (GuestCsr g.vm g.vcpu csr op)) g
        ≡ guest_select (after k (GuestCsr g.vm g.vcpu csr op)) g) }
{
    a_guest_reads_from_memory_what_it_would_in_a_file();
}

/// It claims from memory what it would in a guest file.
pub fn it_claims_from_memory()
    ensures answered { answer entered (GuestCsr 0 0 Topei (Write 0))
        ≡ answer asked (GuestCsr 0 0 Topei (Write 0)) }
    ensures left { guest_file (after entered (GuestCsr 0 0 Topei (Write 0))) (vcpu_of 0 0)
        ≡ guest_file (after asked (GuestCsr 0 0 Topei (Write 0))) (vcpu_of 0 0) }
{
    a_guest_reads_from_memory_what_it_would_in_a_file();
}

/// What a virtual hart is stays as it is where one begins to run from memory, or ceases to.
pub fn what_stays_where_one_runs_from_memory()
    ensures enters { (h : History) (x g : Vcpu)
        → (guest_file (after h (Enter x.vm x.vcpu)) g ≡ guest_file h g)
        × (guest_select (after h (Enter x.vm x.vcpu)) g ≡ guest_select h g)
        × (majors_of (after h (Enter x.vm x.vcpu)) g ≡ majors_of h g) }
    ensures exits { (h : History) (x g : Vcpu)
        → (guest_file (after h (Exit x.vm x.vcpu)) g ≡ guest_file h g)
        × (guest_select (after h (Exit x.vm x.vcpu)) g ≡ guest_select h g)
        × (majors_of (after h (Exit x.vm x.vcpu)) g ≡ majors_of h g) }
    ensures entered { (guest_file (after parked_asked (Enter 0 0)) (vcpu_of 0 0)).pending 1 ≡ true }
    ensures exited { (guest_file (after entered (Exit 0 0)) (vcpu_of 0 0)).pending 1 ≡ true }
{
    running_from_memory_changes_no_guest();
}
