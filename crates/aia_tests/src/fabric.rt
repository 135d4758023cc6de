//! All that stores reach, called by itself, with two VMs.

use crate::same;
use aia_entry::{Entry, Route, is_mask};
use aia_fabric::Fabric;
use aia_file::Spot;
use aia_regs::limits::{GUEST_FILES, HARTS, SLOTS, VCPUS, VM_VCPUS, VMS};
use aia_regs::{FileReg, Op};
use aia_vcpu::{Vm, notice_hart_of, vcpus_in};
use std::alloc::{AllocError, Global};
use std::test::Fail;

/// Makes four harts with two guest files each, and VMs of three and of two virtual harts.
#[tactic(auto, unfolding(aia_word::specs::Packed::ones))]
fn two_vms(alloc: Global) -> Result<Fabric, AllocError> {
    let mut fabric = Fabric::new(alloc, 4, 2, 63)?;
    fabric.vm(3, 0x18, 1);
    fabric.vm(2, 0x8, 2);
    Ok(fabric)
}

/// Takes a store of a device, where the VM stands.
pub(crate) fn stores(fabric: &mut Fabric, vm: u32, addr: u64, value: u32) -> Option<Route> {
    if vm >= fabric.vms() {
        return None;
    }
    Some(fabric.device_store(vm, addr, value))
}

/// Sends the notice of a virtual hart, where it is there.
fn notices(fabric: &mut Fabric, q: u32) {
    if q < fabric.vcpus() {
        fabric.notice(q);
    }
}

/// Does an instruction on the first pending register of the file in whose page an address lies.
pub(crate) fn pending(fabric: &mut Fabric, addr: u64, op: Op) -> Option<u64> {
    let spot = fabric.locate(addr);
    if spot == Spot::Nowhere {
        return None;
    }
    Some(fabric.reg(spot, FileReg::Pending(0), op))
}

#[test]
fn entries_in_force_lead_stores_to_slots(rt: HostRuntime) -> Result<(), Fail> {
    let mut fabric = two_vms(rt.alloc())?;
    same!(rt; fabric.vms(), 2);
    same!(rt; fabric.vcpus(), 5);
    same!(rt; fabric.harts(), 4);
    same!(rt; fabric.guests(), 2);
    let routes = [
        (
            1,
            0x2800_8000,
            Some(Route::To(Entry::Mrif(0x8000_0800, 0x28040, 5))),
        ),
        (
            0,
            0x2800_0000,
            Some(Route::To(Entry::Mrif(0x8000_0000, 0x28020, 1))),
        ),
        (
            0,
            0x2801_0000,
            Some(Route::To(Entry::Mrif(0x8000_0400, 0x28020, 3))),
        ),
        (0, 0x2801_8000, Some(Route::Fault(Entry::NotValid))),
        (0, 0x2802_8000, Some(Route::Other)),
        (2, 0x2800_0000, None),
    ];
    for (vm, addr, route) in routes {
        same!(rt; stores(&mut fabric, vm, addr, 5), route; addr);
    }
    same!(rt; fabric.notices(), 0);
    drop(fabric);
    Ok(())
}

/// Makes a VM of the mask 0xf, where there is room for it.
#[tactic(auto, unfolding(aia_word::specs::Packed::ones))]
fn add_vm(fabric: &mut Fabric, vcpus: u32, hart: u32) {
    let made = fabric.vcpus();
    if fabric.vms() < VMS && vcpus <= VM_VCPUS && made <= VCPUS && vcpus <= VCPUS - made {
        if hart < fabric.harts() {
            fabric.vm(vcpus, 0xf, hart);
        }
    }
}

/// Of the greatest machine, with the most virtual harts of the most VMs.
#[test]
fn the_last_entry_leads_to_the_last_slot(rt: HostRuntime) -> Result<(), Fail> {
    let mut fabric = Fabric::new(rt.alloc(), HARTS, GUEST_FILES, 63)?;
    for vcpus in [2, 2, 2, 2, 2, 3, 3] {
        add_vm(&mut fabric, vcpus, 0);
    }
    add_vm(&mut fabric, VM_VCPUS, HARTS - 1);
    same!(rt; (fabric.vms(), fabric.vcpus()), (VMS, VCPUS));
    let last = Route::To(Entry::Mrif(0x8000_3e00, 0x28060, 32));
    same!(rt; stores(&mut fabric, VMS - 1, 0x2800_f000, 5), Some(last));
    let next_to_last = Route::To(Entry::Mrif(0x8000_3c00, 0x28060, 31));
    same!(rt; stores(&mut fabric, VMS - 1, 0x2800_e004, 0x0600_0000), Some(next_to_last));
    same!(rt; stores(&mut fabric, VMS - 2, 0x2800_3000, 5), Some(Route::Fault(Entry::NotValid)));
    same!(rt; stores(&mut fabric, VMS, 0x2800_0000, 5), None);
    same!(rt; fabric.look(SLOTS - 1, 0), (0x20, 0));
    same!(rt; fabric.look(SLOTS - 2, 0), (0x40, 0));
    notices(&mut fabric, VCPUS - 1);
    same!(rt; pending(&mut fabric, 0x2806_0000, Op::Read), Some(1 << VCPUS));
    drop(fabric);
    Ok(())
}

#[test]
fn notices_reach_the_notice_hart(rt: HostRuntime) -> Result<(), Fail> {
    let mut fabric = two_vms(rt.alloc())?;
    notices(&mut fabric, 4);
    notices(&mut fabric, 2);
    same!(rt; fabric.notices(), 2);
    same!(rt; pending(&mut fabric, 0x2804_0000, Op::Read), Some(1 << 5));
    same!(rt; pending(&mut fabric, 0x2802_0000, Op::Read), Some(1 << 3));
    same!(rt; pending(&mut fabric, 0x2800_0000, Op::Read), Some(0));
    drop(fabric);
    Ok(())
}

#[test]
fn stores_of_the_host_land_in_one_file(rt: HostRuntime) -> Result<(), Fail> {
    let mut fabric = two_vms(rt.alloc())?;
    let spot = fabric.locate(0x2806_2000);
    same!(rt; spot, Spot::GuestFile(3, 2));
    if spot == Spot::Nowhere {
        return Ok(());
    }
    fabric.host_store(spot, 0, 7);
    same!(rt; fabric.file(spot).top(), 0);
    same!(rt; fabric.reg(spot, FileReg::Enable(0), Op::Write(0x80)), 0);
    same!(rt; fabric.claim(spot), 0x7_0007);
    same!(rt; pending(&mut fabric, 0x2806_2000, Op::Read), Some(0));
    same!(rt; pending(&mut fabric, 0x2806_3000, Op::Read), None);
    drop(fabric);
    Ok(())
}

#[test]
fn slots_of_virtual_harts_follow_one_another(rt: HostRuntime) -> Result<(), Fail> {
    let vms = [
        Vm {
            vcpus: 3,
            mask: 0x18,
            notice_hart: 1,
        },
        Vm {
            vcpus: 2,
            mask: 0x8,
            notice_hart: 0,
        },
    ];
    same!(rt; vcpus_in(&vms), 5);
    same!(rt; notice_hart_of(&vms, 2), 1);
    same!(rt; notice_hart_of(&vms, 3), 0);
    let masks = [
        (0, false),
        (8, true),
        (0x4028, true),
        (0x1f, false),
        (0x8000, false),
    ];
    for (mask, may_be) in masks {
        same!(rt; is_mask(mask), may_be; mask);
    }
    Ok(())
}

/// Of the second virtual hart of the second VM: what it does in its slot itself sends no notice.
#[test]
fn slots_are_reached_as_files(rt: HostRuntime) -> Result<(), Fail> {
    let mut fabric = two_vms(rt.alloc())?;
    same!(rt; fabric.slot_reg(4, FileReg::Enable(0), Op::Write(0x60)), 0);
    same!(rt; stores(&mut fabric, 1, 0x2800_8000, 6).is_some(), true);
    same!(rt; stores(&mut fabric, 1, 0x2800_8004, 0x0500_0000).is_some(), true);
    same!(rt; fabric.notices(), 2);
    same!(rt; fabric.slot_reg(4, FileReg::Pending(0), Op::Set(0x80)), 0x60);
    same!(rt; fabric.slot_reg(4, FileReg::Pending(0), Op::Read), 0xe0);
    same!(rt; fabric.slot_top(4, 0), 0x5_0005);
    same!(rt; fabric.slot_top(4, 5), 0);
    same!(rt; fabric.slot_claim(4, 5), 0);
    same!(rt; fabric.slot_claim(4, 6), 0x5_0005);
    same!(rt; fabric.slot_claim(4, 0), 0x6_0006);
    same!(rt; fabric.slot_claim(4, 0), 0);
    same!(rt; fabric.slot_reg(4, FileReg::Enable(0), Op::Clear(0x20)), 0x60);
    same!(rt; fabric.look(4, 0), (0x80, 0x40));
    same!(rt; fabric.look(3, 0), (0, 0));
    same!(rt; fabric.notices(), 2);
    drop(fabric);
    Ok(())
}
