//! Wired sources that are passed.

ghost use Rattle.std.specs.Prelude.{◌≡◌, ℕ, ◌&&◌, is_none, true, false, if◌then◌else◌, None, Some, ◌∷◌};
ghost use Rattle.std.specs.List.{Contains};
ghost use Rattle.std.specs.Option.{option_map};
ghost use Rattle.aia_regs.specs.BitUpdate.{settle};
ghost use Rattle.aia_regs.specs.BitUpdate.BitUpdate.{Nothing};
ghost use Rattle.aia_file.specs.InterruptFile.{landed};
ghost use Rattle.aia_vcpu.specs.Vms.{Vcpu, vcpu_of, is_vcpu, notice_identity};
ghost use Rattle.aia_vcpu.specs.Aims.{host_identity};
ghost use Rattle.aia_model.specs.declared.line.Line.TheVariants.{Wire};
ghost use Rattle.aia_model.specs.declared.msi.Msi.{Msi};
ghost use Rattle.aia_model.specs.Event.{History, has_hart};
ghost use Rattle.aia_model.specs.Event.Event.{Delivered, Relayed};
ghost use Rattle.aia_model.specs.Vms.{vms_of};
ghost use Rattle.aia_model.specs.Passes.{nth_pass, passed_by};
ghost use Rattle.aia_model.specs.Aim.{IsForward, pass_reach, pass_notice_hart};
ghost use Rattle.aia_model.specs.Notice.{noticed};
ghost use Rattle.aia_model.specs.FileAfter.{relay_said};
ghost use Rattle.aia_model.specs.FileOf.{MachineFile, SupervisorFile, is_file, file_of};
ghost use Rattle.aia_model.specs.GuestFile.{guest_file};
ghost use Rattle.aia_model.specs.Sent.{msis_sent_by};
ghost use Rattle.aia_model.specs.Refusal.{refusal};
ghost use Rattle.aia_model.specs.Answer.{after, line_taken, msi_taken};
ghost use Rattle.aia_model.specs.Histories.{IsHistory};
ghost use Rattle.aia_model.specs.Script.{history_of};
ghost use Rattle.aia_uses.specs.Worked.{forward};

use aia_laws::forwards::{
    a_forward_asks_at_its_guest_alone, what_a_line_forwards_is_pending_after_it,
};

/// A source is passed to a virtual hart in a guest file as 5.
pub const PASSED: &str = "machine 1 1 63 1
st 0x0c000004 0x400
st 0x0c008004 4
st 0x0c008000 0x104
st 0x0c001bc4 0x2000
st 0x0c001bc8 0x28000
st 0x0c001bcc 0x500000
st 0x0c009edc 1
vm 1 0x8 0
arrive 0 0 0
pass 1 0 0 5
";

/// The forward of a passed source is one store at the file of its guest, and nothing to any other;
/// in the files of the host it leaves what the notice asks for, where the pass leads to memory.
pub fn what_a_forward_is()
    ensures own { (h : History) (p : ℕ) (msi : Msi) → IsHistory h
        → passed_by h msi.source ≡ Some p → IsForward h p msi
        → guest_file (msi_taken msi h) (nth_pass h p).to
        ≡ landed 0 (nth_pass h p).identity (guest_file h (nth_pass h p).to) }
    ensures others { (h : History) (p : ℕ) (msi : Msi) (g : Vcpu) → IsHistory h
        → passed_by h msi.source ≡ Some p → IsForward h p msi
        → is_vcpu g (nth_pass h p).to ≡ false → guest_file (msi_taken msi h) g ≡ guest_file h g }
    ensures asks { (h : History) (p : ℕ) (msi : Msi) → IsHistory h
        → passed_by h msi.source ≡ Some p → IsForward h p msi
        → (guest_file (msi_taken msi h) (nth_pass h p).to).pending (nth_pass h p).identity ≡ true }
    ensures machine { (h : History) (p : ℕ) (msi : Msi) (hart i : ℕ) → IsHistory h
        → passed_by h msi.source ≡ Some p → IsForward h p msi → has_hart h hart ≡ true
        → (file_of (msi_taken msi h) (MachineFile hart)).pending i
        ≡ (file_of h (MachineFile hart)).pending i }
    ensures supervisor { (h : History) (p : ℕ) (msi : Msi) (hart i : ℕ) → IsHistory h
        → passed_by h msi.source ≡ Some p → IsForward h p msi → has_hart h hart ≡ true
        → (file_of (msi_taken msi h) (SupervisorFile hart)).pending i
        ≡ settle (if is_none (pass_reach h p)
        && is_file (SupervisorFile hart) (SupervisorFile (pass_notice_hart h p))
        then relay_said (file_of h (SupervisorFile hart)).n (host_identity p)
        (option_map (notice_identity (vms_of h)) (noticed (Delivered msi ∷ h) (Relayed p))) i
        else Nothing) ((file_of h (SupervisorFile hart)).pending i) }
{
    a_forward_asks_at_its_guest_alone();
}

/// What a wire that rises forwards is pending at its guest.
pub fn what_a_wire_forwards()
    ensures { (h : History) (source : ℕ) (msi : Msi) (p : ℕ) → IsHistory h
        → refusal h (Wire source true) ≡ None → Contains (msis_sent_by h (Wire source true)) msi
        → passed_by (line_taken h (Wire source true)) msi.source ≡ Some p
        → (guest_file (after h (Wire source true))
        (nth_pass (line_taken h (Wire source true)) p).to).pending
        (nth_pass (line_taken h (Wire source true)) p).identity ≡ true }
{
    what_a_line_forwards_is_pending_after_it();
}

/// One forward, of the script [`PASSED`].
pub fn one_is_forwarded()
    ensures own { (guest_file (msi_taken forward (history_of PASSED.now)) (vcpu_of 0 0)).pending 5
        ≡ true }
    ensures asks { (guest_file (msi_taken forward (history_of PASSED.now)) (vcpu_of 0 0)).pending 5
        ≡ true }
    ensures hosts { (file_of (msi_taken forward (history_of PASSED.now)) (SupervisorFile 0)).pending
        5 ≡ false }
    ensures after_a_line { (guest_file (after (history_of PASSED.now) (Wire 1 true))
        (vcpu_of 0 0)).pending 5 ≡ true }
{
    a_forward_asks_at_its_guest_alone();
    what_a_line_forwards_is_pending_after_it();
}
