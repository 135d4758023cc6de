//! The major interrupts of virtual harts: what the hypervisor sets, and what the guest reads.

ghost use Rattle.std.specs.Prelude.{◌≡◌, ◌<◌, ◌&&◌, not, true, false, length, slice_index_or, if◌then◌else◌, Some, None, is_some, OnOk, OnErr, IfSome};
ghost use Rattle.std.specs.Result.{result_err};
ghost use Rattle.aia_word.specs.Top.{top_value};
ghost use Rattle.aia_file.specs.InterruptFile.{top_of, signals};
ghost use Rattle.aia_file.specs.FileState.{shown};
ghost use Rattle.aia_major.specs.VsMajor.{is_major, is_hvictl, with_injection, with_hviprio1, with_hvictl, with_sip, with_sie, stopi_value, sip_value, sie_value};
ghost use Rattle.aia_major.specs.Kept.{majors_shown};
ghost use Rattle.aia_vcpu.specs.Vms.{vcpu_of, is_vcpu_in, slot_of};
ghost use Rattle.aia_model.specs.declared.line.Line.TheVariants.{Inject, Hvictl, Hviprio};
ghost use Rattle.aia_model.specs.declared.answer.Answer.TheVariants.{Okay};
ghost use Rattle.aia_hyp_values.specs.Core.{no_record, MajorsDone};
ghost use Rattle.aia_hyp_values.specs.Stands.{CoreTakes, answer_by};

use crate::hypervisor_core::{Core, Records};
use aia_file::File;
use aia_hyp_values::VcpuRecord;
use aia_model::Refusal;
use aia_move::Plan;
use aia_regs::Op;

impl Core {
    /// Sets the level in `hvip` of the major interrupt whose bit of `sip` is `bit`, 1, 5, 9 or 13,
    /// of a virtual hart. It may be done at any time, also while the virtual hart is moved. `Err`
    /// is `Range` where the virtual hart isn't there, or `bit` is no such number; nothing is
    /// changed then.
    ///
    /// The hypervisor extension 1.0: `hvip`, which has them at the bits 2, 6, 10 and 13.
    pub fn inject(&mut self, vm: u64, vcpu: u64, bit: u64, level: bool) -> Result<(), Refusal>
        ensures { CoreTakes self.old self.new (Inject vm vcpu bit level)
            (answer_by (λ _. Okay) result) }
    {
        let Some(found) = self.fabric.find(vm, vcpu) else {
            return Err(Refusal::Range);
        };
        inject_in(&mut self.vcpus, found.slot, bit, level)
    }

    /// Writes `hvictl` of a virtual hart, at any time. `Err` is `Range` where the virtual hart
    /// isn't there, or the number has VTI 1 and an IID that is none of 1 to 63; nothing is changed
    /// then.
    ///
    /// AIA 1.0, Interrupts for Virtual Machines (VS Level). Profile: the range of IID.
    pub fn hvictl(&mut self, vm: u64, vcpu: u64, value: u64) -> Result<(), Refusal>
        ensures { CoreTakes self.old self.new (Hvictl vm vcpu value)
            (answer_by (λ _. Okay) result) }
    {
        let Some(found) = self.fabric.find(vm, vcpu) else {
            return Err(Refusal::Range);
        };
        set_hvictl_in(&mut self.vcpus, found.slot, value)
    }

    /// Writes `hviprio1` of a virtual hart, at any time. `Err` is `Range` where the virtual hart
    /// isn't there; nothing is changed then.
    ///
    /// AIA 1.0, Interrupts for Virtual Machines (VS Level).
    pub fn hviprio(&mut self, vm: u64, vcpu: u64, value: u64) -> Result<(), Refusal>
        ensures { CoreTakes self.old self.new (Hviprio vm vcpu value)
            (answer_by (λ _. Okay) result) }
    {
        let Some(found) = self.fabric.find(vm, vcpu) else {
            return Err(Refusal::Range);
        };
        set_hviprio_in(&mut self.vcpus, found.slot, value);
        Ok(())
    }
}

/// Injects a level at a major interrupt of the virtual hart of a slot.
fn inject_in(vcpus: &mut Records, slot: u32, bit: u64, level: bool) -> Result<(), Refusal>
    requires { slot < length vcpus.old.items }
    ensures range { result_err result ≡ (if is_major bit then None else Some Refusal.Range) }
    ensures ok { OnOk result (MajorsDone vcpus.old.items vcpus.new.items slot
        (with_injection bit level)) }
    ensures err { OnErr result (vcpus.new.items ≡ vcpus.old.items) }
{
    let bit = u32::try_from(bit).map_err(|_| Refusal::Range)?;
    let mut majors = vcpus[slot as usize].majors;
    majors.inject(bit, level).map_err(|_| Refusal::Range)?;
    vcpus[slot as usize].majors = majors;
    Ok(())
}

/// Writes `hvictl` of the virtual hart of a slot.
fn set_hvictl_in(vcpus: &mut Records, slot: u32, value: u64) -> Result<(), Refusal>
    requires { slot < length vcpus.old.items }
    ensures range { result_err result ≡ (if is_hvictl value then None else Some Refusal.Range) }
    ensures ok { OnOk result (MajorsDone vcpus.old.items vcpus.new.items slot
        (with_hvictl value)) }
    ensures err { OnErr result (vcpus.new.items ≡ vcpus.old.items) }
{
    let mut majors = vcpus[slot as usize].majors;
    majors.set_hvictl(value).map_err(|_| Refusal::Range)?;
    vcpus[slot as usize].majors = majors;
    Ok(())
}

/// Writes `hviprio1` of the virtual hart of a slot.
fn set_hviprio_in(vcpus: &mut Records, slot: u32, value: u64)
    requires { slot < length vcpus.old.items }
    ensures done { MajorsDone vcpus.old.items vcpus.new.items slot (with_hviprio1 value) }
{
    vcpus[slot as usize].majors.set_hviprio(value);
}

/// Gives what `stopi` of the virtual hart of a slot reads, by its interrupt file.
pub(crate) fn stopi_in(vcpus: &[VcpuRecord<Plan>], slot: u32, file: &File) -> u64
    requires { slot < length vcpus.now }
    ensures { result ≡ stopi_value (majors_shown (slice_index_or vcpus.now slot no_record).majors)
        (top_value (top_of (shown file.now))) (signals (shown file.now)) }
{
    let majors = &vcpus[slot as usize].majors;
    majors.stopi(file.top(), file.signal())
}

/// Accesses `sip` of the virtual hart of a slot, given whether its interrupt file signals, and
/// gives what it read.
pub(crate) fn access_sip_in(vcpus: &mut Records, slot: u32, op: Op, signal: bool) -> u64
    requires { slot < length vcpus.old.items }
    ensures value { result ≡ sip_value
        (majors_shown (slice_index_or vcpus.old.items slot no_record).majors) signal }
    ensures done { MajorsDone vcpus.old.items vcpus.new.items slot (with_sip op) }
{
    vcpus[slot as usize].majors.access_sip(op, signal)
}

/// Accesses `sie` of the virtual hart of a slot, and gives what it read.
pub(crate) fn access_sie_in(vcpus: &mut Records, slot: u32, op: Op) -> u64
    requires { slot < length vcpus.old.items }
    ensures value { result ≡ sie_value
        (majors_shown (slice_index_or vcpus.old.items slot no_record).majors) }
    ensures done { MajorsDone vcpus.old.items vcpus.new.items slot (with_sie op) }
{
    vcpus[slot as usize].majors.access_sie(op)
}
