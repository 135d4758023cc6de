//! The hypervisor's core, called by itself.

ghost use Rattle.std.specs.Prelude.{◌≡◌, nat_lt, IfSome};

use crate::moves::NoTargets;
use crate::same;
use aia_hyp::{Core, Refusal, Want};
use aia_model::{Msi, Part};
use aia_regs::limits::{GUEST_FILES, STORES_IN_FLIGHT, VCPUS, VM_VCPUS, VMS};
use aia_regs::{Csr, Level, Op};
use std::process::Abort;
use std::test::Fail;

#[test]
fn the_core_serves_the_files_of_the_host(rt: HostRuntime) -> Result<(), Fail> {
    let mut core = Core::new(rt.alloc(), 1, 1, 63)?;
    // Enable 3 and 5 in the supervisor file, and let it signal.
    let accesses = [
        (Csr::Select, 0xc0, 0),
        (Csr::Reg, 0x28, 0),
        (Csr::Select, 0x70, 0xc0),
        (Csr::Reg, 1, 0),
    ];
    for (csr, value, before) in accesses {
        same!(rt; core.host(Level::Host, 0, csr, Op::Write(value)), Ok(before));
    }
    same!(rt; core.signals(0), Ok((false, false)));
    same!(rt; core.store(0x2800_0000, 5), Ok(()));
    heard(&mut core, 0x2800_0000, 3);
    // An MSI to a guest's page, and one to no page, are dropped.
    heard(&mut core, 0x2800_1000, 5);
    heard(&mut core, 0x0c00_0000, 5);
    same!(rt; core.signals(0), Ok((false, true)));
    same!(rt; core.load(0x2800_0000), Ok(0));
    same!(rt; core.host(Level::Machine, 0, Csr::Topei, Op::Read), Ok(0));
    same!(rt; core.host(Level::Host, 0, Csr::Topei, Op::Write(0)), Ok(0x3_0003));
    same!(rt; core.host(Level::Host, 0, Csr::Topei, Op::Write(0)), Ok(0x5_0005));
    same!(rt; core.host(Level::Host, 0, Csr::Topei, Op::Read), Ok(0));
    drop(core);
    Ok(())
}

#[test]
fn the_core_refuses_with_its_words(rt: HostRuntime) -> Result<(), Fail> {
    let mut core = Core::new(rt.alloc(), 1, 1, 63)?;
    let stores = [
        (0x2800_0002, Refusal::Fault),
        (0x2800_1000, Refusal::Guarded),
        (0x2800_2000, Refusal::Fault),
        (0x8000_0000, Refusal::Guarded),
        (0x8000_bffc, Refusal::Guarded),
        (0x8000_c000, Refusal::Fault),
        (0x0c00_0000, Refusal::Fault),
    ];
    for (addr, word) in stores {
        same!(rt; core.store(addr, 1), Err(word); addr);
        same!(rt; core.load(addr), Err(word); addr);
    }
    same!(rt; core.signals(1), Err(Refusal::Range));
    same!(rt; core.host(Level::Host, 1, Csr::Select, Op::Read), Err(Refusal::Range));
    same!(rt; core.host(Level::Host, 0, Csr::Reg, Op::Read), Err(Refusal::Illegal));
    drop(core);
    Ok(())
}

#[test]
fn the_core_makes_vms_and_takes_stores_of_their_devices(rt: HostRuntime) -> Result<(), Fail> {
    let mut core = Core::new(rt.alloc(), 2, 0, 63)?;
    let (most, all) = (u64::from(VM_VCPUS), u64::from(VCPUS));
    let vms = [
        ((2, 0x8, 2), Err(Refusal::Range)),
        ((5, 0x18, 0), Err(Refusal::Range)),
        ((most + 1, 0x78, 0), Err(Refusal::Range)),
        ((3, 0x28, 1), Ok(())),
        ((most, 0x78, 0), Ok(())),
        ((all - most - 2, 0x78, 0), Err(Refusal::Full)),
        ((all - most - 3, 0x78, 0), Ok(())),
        ((1, 0x8, 0), Err(Refusal::Full)),
    ];
    for ((vcpus, mask, hart), given) in vms {
        same!(rt; core.vm(vcpus, mask, hart), given; (vcpus, mask));
    }
    let stores = [
        (3, 0x2800_0000, Err(Refusal::Range)),
        (0, 0x2800_0002, Err(Refusal::Fault)),
        (0, 0x2801_0000, Err(Refusal::Other)),
        (0, 0x2802_8000, Err(Refusal::NotValid)),
        (0, 0x2802_0000, Ok(())),
    ];
    for (vm, addr, given) in stores {
        same!(rt; core.msi(vm, addr, 5), given; addr);
    }
    drop(core);
    Ok(())
}

#[test]
fn the_core_moves_virtual_harts(rt: HostRuntime) -> Result<(), Fail> {
    let mut core = Core::new(rt.alloc(), 2, 1, 63)?;
    same!(rt; core.vm(2, 0x8, 0), Ok(()));
    let moves = [
        (1, 0, Want::Leave, Err(Refusal::Range)),
        (0, 2, Want::Leave, Err(Refusal::Range)),
        (0, 0, Want::Arrive(2), Err(Refusal::Range)),
        (0, 0, Want::Leave, Err(Refusal::Parked)),
        (0, 0, Want::Arrive(1), Ok(())),
        (0, 0, Want::Arrive(1), Err(Refusal::Home)),
        (0, 1, Want::Arrive(1), Err(Refusal::NoFile)),
        (0, 0, Want::Shift(0), Ok(())),
        (0, 1, Want::Arrive(1), Ok(())),
        (0, 1, Want::Leave, Ok(())),
    ];
    for (vm, vcpu, want, given) in moves {
        same!(rt; moved(&mut core, vm, vcpu, want), given; (vm, vcpu));
    }
    drop(core);
    Ok(())
}

#[test]
fn the_core_serves_resident_virtual_harts(rt: HostRuntime) -> Result<(), Fail> {
    let mut core = Core::new(rt.alloc(), 1, 1, 63)?;
    same!(rt; core.vm(2, 0x8, 0), Ok(()));
    same!(rt; moved(&mut core, 0, 0, Want::Arrive(0)), Ok(()));
    // Enable 5, and let the file signal.
    let accesses = [
        (0, Csr::Select, Op::Write(0xc0), Ok(0)),
        (0, Csr::Reg, Op::Write(0x20), Ok(0)),
        (0, Csr::Select, Op::Write(0x70), Ok(0xc0)),
        (0, Csr::Reg, Op::Write(1), Ok(0)),
        (1, Csr::Topei, Op::Read, Err(Refusal::Away)),
        (2, Csr::Topei, Op::Read, Err(Refusal::Range)),
    ];
    for (vcpu, csr, op, given) in accesses {
        same!(rt; core.guest(0, vcpu, csr, op), given; vcpu);
    }
    same!(rt; core.hgeip(0), Ok(0));
    same!(rt; core.msi(0, 0x2800_0000, 5), Ok(()));
    same!(rt; core.hgeip(0), Ok(2));
    same!(rt; core.hgeip(1), Err(Refusal::Range));
    same!(rt; core.guest(0, 0, Csr::Topei, Op::Write(0)), Ok(0x5_0005));
    same!(rt; core.guest(0, 0, Csr::Select, Op::Write(0x81)), Ok(0x70));
    same!(rt; core.guest(0, 0, Csr::Reg, Op::Read), Err(Refusal::Virtual));
    let stores = [
        (0, 2, 0, Err(Refusal::Range)),
        (0, 1, 0, Err(Refusal::Away)),
        (0, 0, 2, Err(Refusal::GFault)),
        (0, 0, 0, Ok(())),
    ];
    for (vm, vcpu, to, given) in stores {
        same!(rt; core.ipi(vm, vcpu, to, 5), given; (vcpu, to));
    }
    same!(rt; core.hgeip(0), Ok(2));
    drop(core);
    Ok(())
}

#[test]
fn the_core_has_virtual_harts_run_from_memory(rt: HostRuntime) -> Result<(), Fail> {
    let mut core = Core::new(rt.alloc(), 1, 1, 63)?;
    same!(rt; core.vm(3, 0x18, 0), Ok(()));
    same!(rt; moved(&mut core, 0, 0, Want::Arrive(0)), Ok(()));
    let enters = [
        (1, 0, Err(Refusal::Range)),
        (0, 3, Err(Refusal::Range)),
        (0, 0, Err(Refusal::Home)),
        (0, 1, Ok(())),
        (0, 1, Err(Refusal::Entered)),
    ];
    for (vm, vcpu, given) in enters {
        same!(rt; core.enter(vm, vcpu), given; (vm, vcpu));
    }
    same!(rt; moved(&mut core, 0, 1, Want::Arrive(0)), Err(Refusal::Entered));
    same!(rt; moved(&mut core, 0, 1, Want::Leave), Err(Refusal::Parked));
    listens(&rt, &mut core, 0, 1);
    same!(rt; core.msi(0, 0x2800_8000, 5), Ok(()));
    same!(rt; core.guest(0, 1, Csr::Topei, Op::Write(0)), Ok(0x5_0005));
    same!(rt; core.guest(0, 1, Csr::Topei, Op::Read), Ok(0));
    same!(rt; core.guest(0, 1, Csr::Sip, Op::Read), Err(Refusal::Away));
    same!(rt; core.guest(0, 2, Csr::Topei, Op::Read), Err(Refusal::Away));
    // It asks the resident one for 6, and is asked by it for 7.
    same!(rt; core.ipi(0, 1, 0, 6), Ok(()));
    same!(rt; core.ipi(0, 0, 1, 7), Ok(()));
    let selects = [(0, 0, 0x40), (1, 0x70, 0x80)];
    for (vcpu, before, pending) in selects {
        same!(rt; core.guest(0, vcpu, Csr::Select, Op::Write(0x80)), Ok(before); vcpu);
        same!(rt; core.guest(0, vcpu, Csr::Reg, Op::Read), Ok(pending); vcpu);
    }
    drop(core);
    Ok(())
}

/// Of the second virtual hart the host is told as identity 2, of hart 0.
#[test]
fn the_core_tells_of_what_is_pending_as_one_ceases_to_run(rt: HostRuntime) -> Result<(), Fail> {
    let mut core = Core::new(rt.alloc(), 1, 1, 63)?;
    same!(rt; core.vm(2, 0x8, 0), Ok(()));
    same!(rt; core.host(Level::Host, 0, Csr::Select, Op::Write(0x80)), Ok(0));
    same!(rt; core.enter(0, 1), Ok(()));
    listens(&rt, &mut core, 0, 1);
    // Nothing is pending; 6 is, which is not enabled; 5 is, which the host was told of already.
    for (identity, told, at_exit) in [(0, 0, 0), (6, 0, 0), (5, 4, 4)] {
        same!(rt; core.ipi(0, 1, 1, identity), Ok(()); identity);
        same!(rt; core.host(Level::Host, 0, Csr::Reg, Op::Write(0)), Ok(told); identity);
        same!(rt; core.exit(0, 1), Ok(()); identity);
        same!(rt; core.host(Level::Host, 0, Csr::Reg, Op::Write(0)), Ok(at_exit); identity);
        same!(rt; core.enter(0, 1), Ok(()); identity);
    }
    let exits = [
        (1, 0, Err(Refusal::Range)),
        (0, 2, Err(Refusal::Range)),
        (0, 0, Err(Refusal::Idle)),
        (0, 1, Ok(())),
        (0, 1, Err(Refusal::Idle)),
    ];
    for (vm, vcpu, given) in exits {
        same!(rt; core.exit(vm, vcpu), given; (vm, vcpu));
    }
    same!(rt; core.guest(0, 1, Csr::Topei, Op::Read), Err(Refusal::Away));
    same!(rt; moved(&mut core, 0, 1, Want::Arrive(0)), Ok(()));
    same!(rt; core.guest(0, 1, Csr::Topei, Op::Write(0)), Ok(0x5_0005));
    drop(core);
    Ok(())
}

#[test]
fn the_core_saves_and_loads_images(rt: HostRuntime) -> Result<(), Fail> {
    let mut core = Core::new(rt.alloc(), 1, 1, 63)?;
    same!(rt; core.vm(2, 0x8, 0), Ok(()));
    same!(rt; core.host(Level::Host, 0, Csr::Select, Op::Write(0x80)), Ok(0));
    let loads = [(IMAGE[3], 4), (IMAGE[2], 0), (IMAGE[1], 0), (IMAGE[0], 0)];
    for (part, told) in loads {
        same!(rt; core.load_part(0, 1, &part), Ok(()));
        same!(rt; core.host(Level::Host, 0, Csr::Reg, Op::Write(0)), Ok(told));
    }
    let saves = [
        (0, Ok(IMAGE[0])),
        (1, Ok(IMAGE[1])),
        (2, Ok(IMAGE[2])),
        (3, Ok(IMAGE[3])),
        (4, Err(Refusal::Range)),
    ];
    for (k, given) in saves {
        same!(rt; core.save(0, 1, k), given; k);
    }
    same!(rt; core.save(0, 2, 0), Err(Refusal::Range));
    same!(rt; core.load_part(1, 0, &IMAGE[0]), Err(Refusal::Range));
    let word_1 = Part::Word {
        w: 1,
        pending: 0,
        enable: 0,
    };
    same!(rt; core.load_part(0, 1, &word_1), Err(Refusal::Range));
    same!(rt; core.enter(0, 1), Ok(()));
    same!(rt; core.save(0, 1, 0), Err(Refusal::Entered));
    same!(rt; core.load_part(0, 1, &IMAGE[0]), Err(Refusal::Entered));
    same!(rt; core.guest(0, 1, Csr::Select, Op::Read), Ok(0xc0));
    same!(rt; core.guest(0, 1, Csr::Topei, Op::Write(0)), Ok(0x5_0005));
    drop(core);
    Ok(())
}

/// The image of a virtual hart of files with the identities 1 to 63: 5 and 6 are pending, 5 and 7
/// enabled.
const IMAGE: [Part; 4] = [
    Part::Image {
        version: 1,
        n: 63,
        delivery: true,
        threshold: 6,
        select: 0xc0,
    },
    Part::Majors {
        injected: 0x202,
        enabled: 0x2222,
    },
    Part::Prio {
        hviprio: 0x700,
        hvictl: 0x103,
    },
    Part::Word {
        w: 0,
        pending: 0x60,
        enable: 0xa0,
    },
];

#[test]
fn the_core_has_stores_in_flight(rt: HostRuntime) -> Result<(), Fail> {
    let mut core = Core::new(rt.alloc(), 1, 1, 63)?;
    same!(rt; core.vm(3, 0x18, 0), Ok(()));
    same!(rt; moved(&mut core, 0, 0, Want::Arrive(0)), Ok(()));
    // Enable 5 and 6.
    same!(rt; core.guest(0, 0, Csr::Select, Op::Write(0xc0)), Ok(0));
    same!(rt; core.guest(0, 0, Csr::Reg, Op::Write(0x60)), Ok(0));
    let sends = [
        (1, 0x2800_0000, Err(Refusal::Range)),
        (0, 0x2800_0002, Err(Refusal::Fault)),
        (0, 0x2802_0000, Err(Refusal::Other)),
        (0, 0x2801_8000, Err(Refusal::NotValid)),
        (0, 0x2800_0000, Ok(())),
    ];
    for (vm, addr, given) in sends {
        same!(rt; core.send(vm, addr, 5), given; addr);
    }
    same!(rt; core.guest(0, 0, Csr::Topei, Op::Read), Ok(0));
    let lands = [
        (0, 1, Err(Refusal::Range)),
        (1, 0, Err(Refusal::Range)),
        (0, 0, Ok(())),
        (0, 0, Err(Refusal::Range)),
    ];
    for (vm, k, given) in lands {
        same!(rt; core.land(vm, k), given; (vm, k));
    }
    same!(rt; core.guest(0, 0, Csr::Topei, Op::Write(0)), Ok(0x5_0005));
    drop(core);
    Ok(())
}

#[test]
fn the_core_has_eight_stores_of_a_vm_in_flight_at_most(rt: HostRuntime) -> Result<(), Fail> {
    let mut core = Core::new(rt.alloc(), 1, 1, 63)?;
    same!(rt; core.vm(1, 0x8, 0), Ok(()));
    same!(rt; core.vm(1, 0x8, 0), Ok(()));
    for value in 1..1 + STORES_IN_FLIGHT as u32 {
        same!(rt; core.send(0, 0x2800_0000, value), Ok(()); value);
    }
    same!(rt; core.send(0, 0x2800_0000, 9), Err(Refusal::Full));
    same!(rt; core.send(1, 0x2800_0000, 9), Ok(()));
    // An arrival lands those of its own VM, and all are carried into the guest file.
    same!(rt; moved(&mut core, 0, 0, Want::Arrive(0)), Ok(()));
    same!(rt; core.land(0, 0), Err(Refusal::Range));
    same!(rt; core.land(1, 0), Ok(()));
    same!(rt; core.guest(0, 0, Csr::Select, Op::Write(0x80)), Ok(0));
    same!(rt; core.guest(0, 0, Csr::Reg, Op::Read), Ok(0x1fe));
    drop(core);
    Ok(())
}

#[test]
fn the_core_reads_an_entry_again(rt: HostRuntime) -> Result<(), Fail> {
    let mut core = Core::new(rt.alloc(), 1, 1, 63)?;
    same!(rt; core.vm(1, 0x8, 0), Ok(()));
    same!(rt; moved(&mut core, 0, 0, Want::Arrive(0)), Ok(()));
    // Enable 5 and 6, and be told of notices in the supervisor file.
    same!(rt; core.guest(0, 0, Csr::Select, Op::Write(0xc0)), Ok(0));
    same!(rt; core.guest(0, 0, Csr::Reg, Op::Write(0x60)), Ok(0));
    same!(rt; moved(&mut core, 0, 0, Want::Leave), Ok(()));
    same!(rt; core.host(Level::Host, 0, Csr::Select, Op::Write(0x80)), Ok(0));
    // An arrival has written the entry, but not fenced it.
    same!(rt; core.begin(0, 0, Want::Arrive(0)), Ok(()));
    same!(rt; stepped(&mut core, 0, 0), Ok(false));
    same!(rt; core.msi(0, 0x2800_0000, 5), Ok(()));
    same!(rt; core.host(Level::Host, 0, Csr::Reg, Op::Write(0)), Ok(2));
    same!(rt; core.refetch(0, 0), Ok(()));
    same!(rt; core.msi(0, 0x2800_0000, 6), Ok(()));
    same!(rt; core.host(Level::Host, 0, Csr::Reg, Op::Read), Ok(0));
    same!(rt; core.refetch(0, 1), Err(Refusal::Range));
    same!(rt; core.refetch(1, 0), Err(Refusal::Range));
    drop(core);
    Ok(())
}

/// Delivers an MSI that comes from no source.
fn heard(core: &mut Core, address: u64, value: u32) {
    let _some = core.notices();
    core.deliver(Msi {
        address,
        value,
        source: None,
    });
}

/// Tells whether a hart is there.
fn has_hart(core: &Core, hart: u64) -> bool
    ensures { result ≡ nat_lt hart core.now.world.imsic.harts }
{
    let _some = core.notices();
    core.signals(hart).is_ok()
}

/// Makes targets for the harts of a machine of one or two, which has no source.
fn no_targets(core: &Core) -> Option<NoTargets>
    ensures { IfSome result (λ targets. core.now.world.imsic.harts ≡ targets.harts) }
{
    if !has_hart(core, 0) || has_hart(core, 2) {
        return None;
    }
    let harts = if has_hart(core, 1) { 2 } else { 1 };
    Some(NoTargets { harts })
}

/// Moves a virtual hart, to which no source is passed.
fn moved(core: &mut Core, vm: u64, vcpu: u64, want: Want) -> Result<(), Refusal> {
    match no_targets(core) {
        Some(mut targets) => core.whole(vm, vcpu, want, &mut targets),
        None => Err(Refusal::Fault),
    }
}

/// Makes the next step of its move.
fn stepped(core: &mut Core, vm: u64, vcpu: u64) -> Result<bool, Refusal> {
    match no_targets(core) {
        Some(mut targets) => core.step(vm, vcpu, &mut targets),
        None => Err(Refusal::Fault),
    }
}

/// Makes VMs of this many virtual harts each.
fn make_vms(rt: &impl Abort, core: &mut Core, sizes: &[u64]) {
    for vcpus in sizes {
        same!(*rt; core.vm(*vcpus, 0xf, 1), Ok(()); *vcpus);
    }
}

/// Moves virtual harts of a VM to guest files of hart 1.
fn arrive(rt: &impl Abort, core: &mut Core, vm: u64, vcpus: u64) {
    for vcpu in 0..vcpus {
        same!(*rt; moved(core, vm, vcpu, Want::Arrive(1)), Ok(()); (vm, vcpu));
    }
}

/// Has a resident virtual hart enable identity 5, and its file signal.
fn listens(rt: &impl Abort, core: &mut Core, vm: u64, vcpu: u64) {
    let accesses = [
        (Csr::Select, 0xc0, 0),
        (Csr::Reg, 0x20, 0),
        (Csr::Select, 0x70, 0xc0),
        (Csr::Reg, 1, 0),
    ];
    for (csr, value, before) in accesses {
        same!(*rt; core.guest(vm, vcpu, csr, Op::Write(value)), Ok(before); value);
    }
}

/// Virtual harts of two VMs fill the guest files of a hart; the last one signals.
#[test]
fn the_core_hands_out_the_last_guest_file(rt: HostRuntime) -> Result<(), Fail> {
    let mut core = Core::new(rt.alloc(), 2, GUEST_FILES, 63)?;
    let most = u64::from(VM_VCPUS);
    make_vms(&rt, &mut core, &[most, most]);
    arrive(&rt, &mut core, 0, most);
    arrive(&rt, &mut core, 1, most - 1);
    same!(rt; moved(&mut core, 1, most - 1, Want::Arrive(1)), Err(Refusal::NoFile));
    listens(&rt, &mut core, 1, most - 2);
    same!(rt; core.msi(1, 0x2800_e000, 5), Ok(()));
    same!(rt; core.hgeip(1), Ok(1 << GUEST_FILES));
    same!(rt; core.hgeip(0), Ok(0));
    same!(rt; core.guest(1, most - 2, Csr::Topei, Op::Write(0)), Ok(0x5_0005));
    same!(rt; moved(&mut core, 1, most - 2, Want::Shift(0)), Ok(()));
    same!(rt; moved(&mut core, 1, most - 1, Want::Arrive(1)), Ok(()));
    drop(core);
    Ok(())
}

/// The last virtual hart of the last VM is parked in the last slot, and tells of it by the last
/// notice identity.
#[test]
fn the_core_parks_the_last_virtual_hart_in_the_last_slot(rt: HostRuntime) -> Result<(), Fail> {
    let mut core = Core::new(rt.alloc(), 2, 1, 63)?;
    let (vm, vcpu) = (u64::from(VMS) - 1, u64::from(VM_VCPUS) - 1);
    make_vms(&rt, &mut core, &[2, 2, 2, 2, 2, 3, 3]);
    same!(rt; core.msi(vm, 0x2800_f000, 5), Err(Refusal::Range));
    make_vms(&rt, &mut core, &[vcpu + 1]);
    same!(rt; core.vm(1, 0xf, 1), Err(Refusal::Full));
    same!(rt; moved(&mut core, vm, vcpu, Want::Arrive(0)), Ok(()));
    listens(&rt, &mut core, vm, vcpu);
    same!(rt; moved(&mut core, vm, vcpu, Want::Leave), Ok(()));
    same!(rt; core.host(Level::Host, 1, Csr::Select, Op::Write(0x80)), Ok(0));
    same!(rt; core.msi(vm, 0x2800_e000, 5), Ok(()));
    same!(rt; core.host(Level::Host, 1, Csr::Reg, Op::Write(0)), Ok(0));
    same!(rt; core.msi(vm, 0x2800_f000, 5), Ok(()));
    same!(rt; core.host(Level::Host, 1, Csr::Reg, Op::Write(0)), Ok(1 << VCPUS));
    same!(rt; moved(&mut core, vm, vcpu, Want::Arrive(1)), Ok(()));
    same!(rt; core.guest(vm, vcpu, Csr::Topei, Op::Write(0)), Ok(0x5_0005));
    same!(rt; moved(&mut core, vm, vcpu + 1, Want::Leave), Err(Refusal::Range));
    same!(rt; moved(&mut core, vm + 1, 0, Want::Leave), Err(Refusal::Range));
    drop(core);
    Ok(())
}

/// As many VMs stand as there may be, of one virtual hart each, and no more.
#[test]
fn the_core_makes_no_more_vms_than_there_is_room_for(rt: HostRuntime) -> Result<(), Fail> {
    let mut core = Core::new(rt.alloc(), 2, 0, 63)?;
    for vm in 0..u64::from(VMS) {
        same!(rt; core.msi(vm, 0x2800_0000, 5), Err(Refusal::Range); vm);
        same!(rt; core.vm(1, 0x1, 0), Ok(()); vm);
        same!(rt; core.msi(vm, 0x2800_0000, 5), Ok(()); vm);
    }
    same!(rt; core.vm(1, 0x1, 0), Err(Refusal::Full));
    same!(rt; core.msi(u64::from(VMS), 0x2800_0000, 5), Err(Refusal::Range));
    drop(core);
    Ok(())
}
