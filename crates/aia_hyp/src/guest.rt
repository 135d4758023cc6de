ghost use Rattle.std.specs.Prelude.{◌≡◌, ◌<◌, ◌≤◌, true, false, length, slice_index_or, slice_set, Some};
ghost use Rattle.aia_regs.specs.FileRegisters.{select_written};
ghost use Rattle.aia_csr.specs.CsrAccess.{ReachesUsable, csr_access};
ghost use Rattle.aia_major.specs.VsMajor.{vti_of};
ghost use Rattle.aia_major.specs.Kept.{majors_shown};
ghost use Rattle.aia_vcpu.specs.Vms.{vcpu_of, is_vcpu_in};
ghost use Rattle.aia_model.specs.declared.line.Line.TheVariants.{GuestCsr};
ghost use Rattle.aia_model.specs.declared.answer.Answer.TheVariants.{Wide};
ghost use Rattle.aia_fabric_values.specs.Changes.{spot_of};
ghost use Rattle.aia_fabric_values.specs.Found.{IsFound};
ghost use Rattle.aia_fabric_values.specs.Whole.{IsWhole};
ghost use Rattle.aia_hyp_values.specs.Core.{no_record, record_of, resident_at, runs_in};
ghost use Rattle.aia_hyp_values.specs.Stands.{CoreTakes, answer_by};

use crate::hypervisor_core::{Core, Records, claim_or_read, select_after};
use crate::majors::{access_sie_in, access_sip_in, stopi_in};
use aia_csr::{CsrAccess, decide};
use aia_fabric::Found;
use aia_file::Spot;
use aia_model::Refusal;
use aia_regs::{Csr, Level, Op};
use aia_vcpu::GuestPlace;

impl Core {
    /// Does a CSR instruction of a virtual hart, and answers what the CSR read before it. `Err` is
    /// `Range` where the virtual hart isn't there, `Away` where it doesn't run, or runs from memory
    /// and the CSR is none of its interrupt file, and `Illegal` or `Virtual` where the access
    /// raises an illegal-instruction or a virtual-instruction exception; nothing is changed then.
    ///
    /// AIA 1.0, Interrupts for Virtual Machines (VS Level).
    pub fn guest(&mut self, vm: u64, vcpu: u64, csr: Csr, op: Op) -> Result<u64, Refusal>
        ensures { CoreTakes self.old self.new (GuestCsr vm vcpu csr op)
            (answer_by Wide result) }
    {
        let Some(found) = self.fabric.find(vm, vcpu) else {
            return Err(Refusal::Range);
        };
        match self.record_of(found).stay.resident() {
            Some(place) => self.guest_access(found, place, csr, op),
            None => self.away_access(found, csr, op),
        }
    }

    /// Does the access of a virtual hart that is resident in a guest file.
    fn guest_access(
        &mut self,
        found: Found,
        place: GuestPlace,
        csr: Csr,
        op: Op,
    ) -> Result<u64, Refusal>
        requires found { IsFound self.old.world found }
        requires whole { IsWhole self.old.world }
        requires resident { resident_at (record_of self.old (vcpu_of found.vm found.vcpu)).stay
            ≡ Some place }
        ensures { CoreTakes self.old self.new (GuestCsr found.vm found.vcpu csr op)
            (answer_by Wide result) }
    {
        let spot = file_spot(place);
        let slot = found.slot;
        match self.guest_reached(found, csr, op) {
            CsrAccess::Select => Ok(access_select_in(&mut self.vcpus, slot, op)),
            CsrAccess::File(reg) => Ok(self.fabric.reg(spot, reg, op)),
            CsrAccess::Top => Ok(claim_or_read(&mut self.fabric, spot, op)),
            CsrAccess::Topi => Ok(stopi_in(&self.vcpus, slot, self.fabric.file(spot))),
            CsrAccess::Sip => {
                let signal = self.fabric.file(spot).signal();
                Ok(access_sip_in(&mut self.vcpus, slot, op, signal))
            }
            CsrAccess::Sie => Ok(access_sie_in(&mut self.vcpus, slot, op)),
            CsrAccess::Illegal => Err(Refusal::Illegal),
            CsrAccess::Virtual => Err(Refusal::Virtual),
        }
    }

    /// Tells what the access of a virtual hart that is there reaches, by its select number and
    /// VTI.
    pub(crate) fn guest_reached(&self, found: Found, csr: Csr, op: Op) -> CsrAccess
        requires found { IsFound self.now.world found }
        ensures table { result ≡ csr_access Level.Guest csr op
            (record_of self.now (vcpu_of found.vm found.vcpu)).select
            (vti_of (majors_shown
            (record_of self.now (vcpu_of found.vm found.vcpu)).majors).hvictl) }
        ensures usable { ReachesUsable result }
    {
        let record = self.record_of(found);
        decide(Level::Guest, csr, op, record.select, record.majors.vti())
    }
}

/// Tells where a guest file is among all files.
fn file_spot(place: GuestPlace) -> Spot
    ensures { result ≡ spot_of place }
{
    Spot::GuestFile(place.hart, place.file)
}

/// Accesses the select CSR of the virtual hart of a slot, and gives the old select number.
pub(crate) fn access_select_in(vcpus: &mut Records, slot: u32, op: Op) -> u64
    requires { slot < length vcpus.old.items }
    ensures value { result ≡ (slice_index_or vcpus.old.items slot no_record).select }
    ensures after { vcpus.new.items ≡ slice_set vcpus.old.items slot
        (record (slice_index_or vcpus.old.items slot no_record) {
          select = select_written op (slice_index_or vcpus.old.items slot no_record).select;
        }) }
{
    let record = &mut vcpus[slot as usize];
    let before = record.select;
    record.select = select_after(op, before);
    before
}
