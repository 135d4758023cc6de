//! Virtual harts that run from memory: their interrupts stay in their slots, and the hypervisor
//! answers for their interrupt files.

ghost use Rattle.std.specs.Prelude.{◌≡◌, ◌%◌, ◌<◌, true, is_some, None, length, slice_index_or, slice_set};
ghost use Rattle.aia_word.specs.Top.{top_value};
ghost use Rattle.aia_regs.specs.declared.limits.TheConstants.{VCPUS};
ghost use Rattle.aia_regs.specs.FileRegisters.{number_after};
ghost use Rattle.aia_csr.specs.CsrAccess.{is_file_csr, IsFileCsr};
ghost use Rattle.aia_file.specs.InterruptFile.{top_of};
ghost use Rattle.aia_vcpu.specs.Vms.{vcpu_of, is_vcpu_in};
ghost use Rattle.aia_fabric_values.specs.SlotAccess.{file_of_slot};
ghost use Rattle.aia_fabric_values.specs.Whole.{IsWhole};
ghost use Rattle.aia_model.specs.declared.line.Line.TheVariants.{Enter, Exit, GuestCsr};
ghost use Rattle.aia_model.specs.declared.answer.Answer.TheVariants.{Okay, Wide};
ghost use Rattle.aia_hyp_values.specs.Core.{no_record, record_of, resident_at, entered_at};
ghost use Rattle.aia_hyp_values.specs.Memory.{Enters, is_outside_sets, kept_after, kept_value, TopDone};
ghost use Rattle.aia_fabric_values.specs.Found.{IsFound};
ghost use Rattle.aia_hyp_values.specs.Stands.{CoreTakes, answer_by};

use crate::guest::access_select_in;
use crate::hypervisor_core::{Core, Records};
use aia_csr::CsrAccess;
use aia_fabric::{Fabric, Found};
use aia_hyp_values::Stay;
use aia_model::Refusal;
use aia_move::{KeptNumbers, Plan};
use aia_regs::{Csr, FileReg, Op};
use aia_vcpu::Rest;

impl Core {
    /// Has a virtual hart run from memory: from now on it runs, and its interrupts stay in its
    /// slot. `Err` is `Range` where the virtual hart isn't there, `Busy` where it is being moved,
    /// `Home` where it is resident, `Entered` where it runs from memory already; nothing is changed
    /// then. Profile.
    pub fn enter(&mut self, vm: u64, vcpu: u64) -> Result<(), Refusal>
        ensures { CoreTakes self.old self.new (Enter vm vcpu) (answer_by (λ _. Okay) result) }
    {
        let Some(found) = self.fabric.find(vm, vcpu) else {
            return Err(Refusal::Range);
        };
        enter_in(&mut self.vcpus, found.slot)
    }

    /// Has a virtual hart cease to run from memory: it is parked then. Its notice is sent exactly
    /// where an identity is both pending and enabled at it. `Err` is `Range` where the virtual hart
    /// isn't there, `Idle` where it does not run from memory; nothing is changed then. Profile.
    pub fn exit(&mut self, vm: u64, vcpu: u64) -> Result<(), Refusal>
        ensures { CoreTakes self.old self.new (Exit vm vcpu) (answer_by (λ _. Okay) result) }
    {
        let Some(found) = self.fabric.find(vm, vcpu) else {
            return Err(Refusal::Range);
        };
        match self.record_of(found).stay.entered() {
            Some(kept) => {
                self.park(found, kept);
                Ok(())
            }
            None => Err(Refusal::Idle),
        }
    }

    /// Parks a virtual hart that ran from memory, and sends its notice where an identity is both
    /// pending and enabled.
    fn park(&mut self, found: Found, kept: KeptNumbers)
        requires found { IsFound self.old.world found }
        requires entered { (record_of self.old (vcpu_of found.vm found.vcpu)).stay
            ≡ Stay.InMemory Rest.Entered kept }
        ensures { CoreTakes self.old self.new (Exit found.vm found.vcpu) Okay }
    {
        self.fabric.recall();
        put_stay(
            &mut self.vcpus,
            found.slot,
            Stay::InMemory(Rest::Parked, kept),
        );
        if slot_is_live(&mut self.fabric, found.slot) {
            self.fabric.notice(found.slot);
        }
    }

    /// Does the access of a virtual hart that is there and is not resident: one that runs from
    /// memory has the CSRs of its interrupt file. `Err` as of [`Core::guest`].
    pub(crate) fn away_access(&mut self, found: Found, csr: Csr, op: Op) -> Result<u64, Refusal>
        requires found { IsFound self.old.world found }
        requires whole { IsWhole self.old.world }
        requires away { resident_at (record_of self.old (vcpu_of found.vm found.vcpu)).stay ≡ None }
        ensures { CoreTakes self.old self.new (GuestCsr found.vm found.vcpu csr op)
            (answer_by Wide result) }
    {
        match self.record_of(found).stay.entered() {
            Some(kept) if is_file_csr(csr) => self.memory_access(found, kept, csr, op),
            _ => Err(Refusal::Away),
        }
    }

    /// Does the access of a virtual hart that runs from memory to a CSR of its interrupt file: the
    /// sets are its slot's, the numbers are kept beside it. `Err` as of [`Core::guest`].
    fn memory_access(
        &mut self,
        found: Found,
        kept: KeptNumbers,
        csr: Csr,
        op: Op,
    ) -> Result<u64, Refusal>
        requires found { IsFound self.old.world found }
        requires whole { IsWhole self.old.world }
        requires entered { (record_of self.old (vcpu_of found.vm found.vcpu)).stay
            ≡ Stay.InMemory Rest.Entered kept }
        requires listed { IsFileCsr csr }
        ensures { CoreTakes self.old self.new (GuestCsr found.vm found.vcpu csr op)
            (answer_by Wide result) }
    {
        let slot = found.slot;
        match self.guest_reached(found, csr, op) {
            CsrAccess::Select => Ok(access_select_in(&mut self.vcpus, slot, op)),
            CsrAccess::File(reg) if is_outside_sets(reg) => {
                let modulus = 64 * u64::from(self.fabric.words());
                Ok(access_kept_in(&mut self.vcpus, slot, kept, reg, op, modulus))
            }
            CsrAccess::File(reg) => Ok(self.fabric.slot_reg(slot, reg, op)),
            CsrAccess::Top => Ok(top_in(&mut self.fabric, slot, kept.threshold, op)),
            CsrAccess::Illegal => Err(Refusal::Illegal),
            CsrAccess::Virtual => Err(Refusal::Virtual),
            CsrAccess::Topi | CsrAccess::Sip | CsrAccess::Sie => unreachable!(),
        }
    }
}

/// Tells whether a CSR is one of an interrupt file.
fn is_file_csr(csr: Csr) -> bool
    ensures { result ≡ is_file_csr csr }
{
    matches!(csr, Csr::Select | Csr::Reg | Csr::Topei)
}

/// Tells whether an identity is both pending and enabled in a slot: with no threshold, the identity
/// on top is one.
fn slot_is_live(fabric: &mut Fabric, slot: u32) -> bool
    requires { slot < VCPUS }
    ensures value { result ≡ is_some (top_of (file_of_slot fabric.old slot 0)) }
    ensures same { fabric.new ≡ fabric.old }
{
    fabric.slot_top(slot, 0) != 0
}

/// Tells whether a register is none of the sets'.
fn is_outside_sets(reg: FileReg) -> bool
    ensures { result ≡ is_outside_sets reg }
{
    !matches!(reg, FileReg::Pending(_) | FileReg::Enable(_))
}

/// Has the virtual hart of a slot run from memory where it is parked; `Err` as of [`Core::enter`].
fn enter_in(vcpus: &mut Records, slot: u32) -> Result<(), Refusal>
    requires { slot < length vcpus.old.items }
    ensures enters { Enters vcpus.old.items vcpus.new.items slot (answer_by (λ _. Okay) result) }
{
    let stay = &mut vcpus[slot as usize].stay;
    let kept = stay.parked()?;
    *stay = Stay::InMemory(Rest::Entered, kept);
    Ok(())
}

/// Puts a virtual hart elsewhere, in the record of its slot.
fn put_stay(vcpus: &mut Records, slot: u32, stay: Stay<Plan>)
    requires { slot < length vcpus.old.items }
    ensures after { vcpus.new.items ≡ slice_set vcpus.old.items slot
        (record (slice_index_or vcpus.old.items slot no_record) { stay = stay }) }
{
    vcpus[slot as usize].stay = stay;
}

/// Accesses a register of the interrupt file of the virtual hart of a slot that runs from memory,
/// none of its sets', given the numbers that are kept of it, and gives what it read; eithreshold is
/// kept below `modulus`.
fn access_kept_in(
    vcpus: &mut Records,
    slot: u32,
    kept: KeptNumbers,
    reg: FileReg,
    op: Op,
    modulus: u64,
) -> u64
    requires slot { slot < length vcpus.old.items }
    requires some { 0 < modulus }
    requires number { is_outside_sets reg ≡ true }
    ensures value { result ≡ kept_value kept reg }
    ensures after { vcpus.new.items ≡ slice_set vcpus.old.items slot
        (record (slice_index_or vcpus.old.items slot no_record) {
          stay = Stay.InMemory Rest.Entered (kept_after modulus reg op kept);
        }) }
{
    let mut now = kept;
    let before = match reg {
        FileReg::Delivery => {
            now.delivery = access_number(kept.delivery, 2, op);
            kept.delivery
        }
        FileReg::Threshold => {
            now.threshold = access_number(kept.threshold, modulus, op);
            kept.threshold
        }
        _ => 0,
    };
    put_stay(vcpus, slot, Stay::InMemory(Rest::Entered, now));
    before
}

/// Gives what an access makes of a register that keeps a number modulo `modulus`.
fn access_number(was: u64, modulus: u64, op: Op) -> u64
    requires { 0 < modulus }
    ensures { result ≡ number_after (λ v. v % modulus) op was }
{
    if op.is_writing() {
        op.written(was) % modulus
    } else {
        was
    }
}

/// Reads the topei CSR of a slot as an interrupt file with a threshold, and claims the identity on
/// top where the instruction writes; all else stays.
fn top_in(fabric: &mut Fabric, slot: u32, threshold: u64, op: Op) -> u64
    requires { slot < VCPUS }
    ensures value { result ≡ top_value (top_of (file_of_slot fabric.old slot threshold)) }
    ensures done { TopDone fabric.old fabric.new slot threshold op }
{
    if op.is_writing() {
        fabric.slot_claim(slot, threshold)
    } else {
        fabric.slot_top(slot, threshold)
    }
}
