ghost use Rattle.std.specs.Prelude.{◌≡◌};
ghost use Rattle.aia_model.specs.declared.line.Line.TheVariants.{Send, Land, Refetch};
ghost use Rattle.aia_model.specs.declared.answer.Answer.TheVariants.{Okay};
ghost use Rattle.aia_hyp_values.specs.Stands.{CoreTakes, answer_by};

use crate::hypervisor_core::{Core, taken_by};
use aia_model::Refusal;
use aia_regs::limits::STORES_IN_FLIGHT;

/// Stores of devices that are in flight, and entries that are read again.
impl Core {
    /// Sends a 32-bit store of a device of a VM at an address: it is in flight from now on, to the
    /// place to which the entry in force leads it, and asks for nothing until it lands. `Err` is
    /// `Range` where the VM doesn't stand, `Full` where `STORES_IN_FLIGHT` stores of it are in
    /// flight, `Fault` where the address is no multiple of 4, `Other` where it is no MSI address of
    /// the VM, `NotValid` where it names no virtual hart; nothing is changed then.
    ///
    /// AIA 1.0, IOMMU Support for MSIs to Virtual Machines. Profile: how many may be in flight.
    pub fn send(&mut self, vm: u64, addr: u64, value: u32) -> Result<(), Refusal>
        ensures { CoreTakes self.old self.new (Send vm addr value) (answer_by (λ _. Okay) result) }
    {
        if vm >= u64::from(self.fabric.vms()) {
            return Err(Refusal::Range);
        }
        if self.fabric.flying(vm as u32) >= STORES_IN_FLIGHT {
            return Err(Refusal::Full);
        }
        if addr % 4 != 0 {
            return Err(Refusal::Fault);
        }
        taken_by(self.fabric.send(vm as u32, addr, value))
    }

    /// Lands the `k`-th store in flight of a VM, counted from 0, the oldest first: it asks at the
    /// virtual hart that it names, wherever that one's file is by now. `Err` is `Range` where the
    /// VM doesn't stand or has no such store in flight; nothing is changed then.
    ///
    /// AIA 1.0, IOMMU Support for MSIs to Virtual Machines. Profile: they land in any order.
    pub fn land(&mut self, vm: u64, k: u64) -> Result<(), Refusal>
        ensures { CoreTakes self.old self.new (Land vm k) (answer_by (λ _. Okay) result) }
    {
        if vm >= u64::from(self.fabric.vms()) {
            return Err(Refusal::Range);
        }
        if k >= self.fabric.flying(vm as u32) as u64 {
            return Err(Refusal::Range);
        }
        self.fabric.land(vm as u32, k as usize);
        Ok(())
    }

    /// Has the IOMMU read the entry of a virtual hart again: what its words say is in force then,
    /// and no store lands. `Err` is `Range` where the virtual hart isn't there; nothing is changed
    /// then.
    ///
    /// AIA 1.0, IOMMU Support for MSIs to Virtual Machines, "MSI page tables".
    pub fn refetch(&mut self, vm: u64, vcpu: u64) -> Result<(), Refusal>
        ensures { CoreTakes self.old self.new (Refetch vm vcpu) (answer_by (λ _. Okay) result) }
    {
        let Some(found) = self.fabric.find(vm, vcpu) else {
            return Err(Refusal::Range);
        };
        self.fabric.refetch(found);
        Ok(())
    }
}
