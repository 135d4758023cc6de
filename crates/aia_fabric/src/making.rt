ghost use Rattle.std.specs.Prelude.{◌≡◌, ◌+◌, ◌^◌, ◌<◌, ◌≤◌, length};
ghost use Rattle.aia_word.specs.Packed.{ones};
ghost use Rattle.aia_regs.specs.declared.limits.TheConstants.{VMS, VCPUS};
ghost use Rattle.aia_entry.specs.Translation.{IsMask};
ghost use Rattle.aia_vcpu.specs.Vms.{vcpus_in};
ghost use Rattle.aia_fabric_values.specs.Making.{MakesVm};

use crate::{Fabric, map};
use aia_vcpu::Vm;

impl Fabric {
    /// Makes the next VM, while fewer than `VMS` stand: of `vcpus` virtual harts, at most 2^k where
    /// its mask has k ones, and `VCPUS` with those of the VMs that stand, and the mask `mask` of
    /// its MSI addresses, over numbers of pages, which has 1 to `MASK_ONES` ones, all below bit
    /// `MASK_BITS`. The supervisor file of hart `hart`, one that is there, takes the notices of its
    /// virtual harts. The entry of each virtual hart is written and in force, and leads to its slot
    /// of memory.
    ///
    /// AIA 1.0, IOMMU Support for MSIs to Virtual Machines, "MSI page tables".
    pub fn vm(&mut self, vcpus: u32, mask: u64, hart: u32)
        requires few { length self.old.vms < VMS }
        requires mask { IsMask mask }
        requires numbers { vcpus ≤ 2 ^ ones 64 mask }
        requires vcpus { vcpus_in self.old.vms + vcpus ≤ VCPUS }
        requires hart { hart < self.old.imsic.harts }
        ensures { MakesVm self.old self.new
            (record { vcpus = vcpus; mask = mask; notice_hart = hart }) }
    {
        let vm = self.vms();
        let first = self.vcpus();
        let page = map::notice_page(hart);
        self.add_vm(Vm {
            vcpus,
            mask,
            notice_hart: hart,
        });
        for file in 0..vcpus {
            self.make_entry(vm, file, first + file, page);
        }
    }
}
