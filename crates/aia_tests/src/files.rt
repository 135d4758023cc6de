//! One interrupt file, and the files of a machine.

ghost use Rattle.std.specs.Prelude.{◌≡◌, ◌<◌};

use crate::looks::{holds, is_same};
use crate::same;
use aia_file::{File, Looks, Spot, search};
use aia_imsic::Imsic;
use aia_regs::limits::{GUEST_FILES, HARTS};
use aia_regs::{FileReg, Op};
use aia_word::Steps;
use std::marker::Brand;
use std::process::Abort;
use std::sync::ledger::{Blank, Ledger};
use std::test::Fail;

/// Addresses at the ends of pages, of a machine of two harts with one guest file each.
const PLACES: [(u64, Spot); 20] = [
    (0, Spot::Nowhere),
    (0x0c00_0000, Spot::Nowhere),
    (0x23ff_ffff, Spot::Nowhere),
    (0x2400_0000, Spot::MachineFile(0)),
    (0x2400_0fff, Spot::MachineFile(0)),
    (0x2400_1000, Spot::MachineFile(1)),
    (0x2400_2000, Spot::Nowhere),
    (0x27ff_ffff, Spot::Nowhere),
    (0x2800_0000, Spot::SupervisorFile(0)),
    (0x2800_1000, Spot::GuestFile(0, 1)),
    (0x2800_1fff, Spot::GuestFile(0, 1)),
    (0x2800_2000, Spot::Nowhere),
    (0x2800_8004, Spot::Nowhere),
    (0x2801_ffff, Spot::Nowhere),
    (0x2802_0004, Spot::SupervisorFile(1)),
    (0x2802_1000, Spot::GuestFile(1, 1)),
    (0x2802_2000, Spot::Nowhere),
    (0x2804_0000, Spot::Nowhere),
    (0x8000_0000, Spot::Nowhere),
    (u64::MAX, Spot::Nowhere),
];

#[test]
fn an_address_lies_in_one_page(rt: HostRuntime) -> Result<(), Fail> {
    let imsic = Imsic::new(rt.alloc(), 2, 1, 63)?;
    same!(rt; imsic.harts(), 2);
    same!(rt; imsic.guests(), 1);
    for (addr, spot) in &PLACES {
        same!(rt; imsic.locate(*addr), *spot; *addr);
    }
    Ok(())
}

/// Addresses at the ends of pages, of the machine with the most harts and guest files.
const LAST_PLACES: [(u64, Spot); 9] = [
    (0x2400_3fff, Spot::MachineFile(3)),
    (0x2400_4000, Spot::Nowhere),
    (0x2801_ffff, Spot::GuestFile(0, 31)),
    (0x2802_0000, Spot::SupervisorFile(1)),
    (0x2803_f000, Spot::GuestFile(1, 31)),
    (0x2804_0000, Spot::SupervisorFile(2)),
    (0x2806_0000, Spot::SupervisorFile(3)),
    (0x2807_ffff, Spot::GuestFile(3, 31)),
    (0x2808_0000, Spot::Nowhere),
];

#[test]
fn the_last_guest_file_of_a_hart_lies_before_the_next_hart(rt: HostRuntime) -> Result<(), Fail> {
    let mut imsic = Imsic::new(rt.alloc(), HARTS, GUEST_FILES, 63)?;
    for (addr, spot) in &LAST_PLACES {
        same!(rt; imsic.locate(*addr), *spot; *addr);
    }
    let last = Spot::GuestFile(HARTS - 1, GUEST_FILES);
    listens(imsic.file_mut(last));
    imsic.store(last, 0, 3);
    same!(rt; imsic.hgeip(HARTS - 1), 1 << GUEST_FILES);
    same!(rt; imsic.hgeip(0), 0);
    Ok(())
}

/// Enables the identities 1 to 4, and delivers them.
fn listens(file: &mut File) {
    file.write(FileReg::Enable(0), 0b1_1110);
    file.write(FileReg::Delivery, 1);
}

#[test]
fn files_are_apart_and_those_of_guests_signal(rt: HostRuntime) -> Result<(), Fail> {
    let mut imsic = Imsic::new(rt.alloc(), 1, 2, 63)?;
    imsic.store(Spot::MachineFile(0), 0, 1);
    imsic.store(Spot::SupervisorFile(0), 4, 0x0200_0000);
    imsic.store(Spot::GuestFile(0, 1), 0, 3);
    imsic.store(Spot::GuestFile(0, 2), 0, 4);
    let pending = FileReg::Pending(0);
    same!(rt; imsic.file(Spot::MachineFile(0)).read(pending), 0b10);
    same!(rt; imsic.file(Spot::SupervisorFile(0)).read(pending), 0b100);
    same!(rt; imsic.file(Spot::GuestFile(0, 1)).read(pending), 0b1000);
    same!(rt; imsic.file(Spot::GuestFile(0, 2)).read(pending), 0b1_0000);
    listens(imsic.file_mut(Spot::SupervisorFile(0)));
    listens(imsic.file_mut(Spot::GuestFile(0, 2)));
    // The host's own file signals too, but is none of a guest's.
    holds(&rt, imsic.file(Spot::SupervisorFile(0)).signal());
    same!(rt; imsic.hgeip(0), 0b100);
    same!(rt; imsic.file_mut(Spot::GuestFile(0, 2)).claim(), 0x4_0004);
    same!(rt; imsic.hgeip(0), 0);
    Ok(())
}

#[test]
fn ones_are_set_and_cleared(rt: HostRuntime) -> Result<(), Fail> {
    let mut file = File::new(rt.alloc(), 63)?;
    let pending = FileReg::Pending(0);
    same!(rt; file.set(pending, 0b1011), 0);
    same!(rt; file.clear(pending, 0b110), 0b1010);
    same!(rt; file.read(pending), 0b1000);
    Ok(())
}

/// Writes the first enable register, and gives what it read before.
fn enables(file: &mut File, value: u64) -> u64 {
    file.write(FileReg::Enable(0), value)
}

/// Writes `eidelivery`, and gives what it read before.
fn delivers(file: &mut File, value: u64) -> u64 {
    file.write(FileReg::Delivery, value)
}

/// Does an instruction on the threshold.
fn threshold(file: &mut File, op: Op) -> u64 {
    file.access(FileReg::Threshold, op)
}

/// Takes a store.
fn lands(file: &mut File, offset: u32, value: u32) {
    file.land(offset, value);
}

/// Claims what is on top.
fn claims(file: &mut File) -> u64 {
    file.claim()
}

#[test]
fn a_file_shows_and_claims_the_identity_on_top(rt: HostRuntime) -> Result<(), Fail> {
    let mut file = File::new(rt.alloc(), 63)?;
    holds(&rt, file.is_empty());
    // Identity 0 can't be enabled: 4 and 5 are.
    same!(rt; enables(&mut file, 0b11_0001), 0);
    lands(&mut file, 0, 5);
    lands(&mut file, 4, 0x0400_0000);
    same!(rt; file.top(), 0x4_0004);
    holds(&rt, !file.signal());
    same!(rt; delivers(&mut file, 3), 0);
    holds(&rt, file.signal());
    holds(&rt, !file.is_empty());
    // The threshold is kept modulo 64, so as 4.
    same!(rt; threshold(&mut file, Op::Set(68)), 0);
    same!(rt; file.top(), 0);
    same!(rt; threshold(&mut file, Op::Clear(4)), 4);
    same!(rt; claims(&mut file), 0x4_0004);
    same!(rt; claims(&mut file), 0x5_0005);
    same!(rt; claims(&mut file), 0);
    Ok(())
}

/// Makes the identity, 1 to 2047, pending and enabled.
fn asks(file: &mut File, identity: u32)
    requires { identity < 2048 }
{
    file.land(0, identity);
    file.set(FileReg::Enable(identity / 64 * 2), 1 << (identity % 64));
}

/// Two sets of one word, in which identity 9 alone is, with a count of the looks at them.
#[derive(Drop)]
struct OnlyNine<L: Ledger> {
    steps: Steps<L>,
}

impl<L: Ledger> Looks for OnlyNine<L> {
    ghost use Rattle.std.specs.Prelude.{nat_eq, ⊤};

    ghost width = { λ _. 1 };

    ghost pending = { λ _ i. nat_eq i 9 };

    ghost enabled = { λ _ i. nat_eq i 9 };

    ghost count = { λ v. v.steps };

    ghost IsSamePlace = { λ _ _. ⊤ };

    fn summary(&mut self) -> u64 {
        self.steps.count_one();
        1
    }

    fn pair(&mut self, _k: u32) -> (u64, u64) {
        self.steps.count_one();
        (0x200, 0x200)
    }

    ghost same_place_follows = { λ a b c first second. tt };
}

/// Looks at a file by counted calls, and searches two sets by the search itself. That each adds one
/// step or two, its clauses say: a count has no value while the program runs.
fn looks_are_counted<L: Ledger>(rt: &impl Abort, file: &mut File, blank: Blank)
    requires name { blank.name ≡ L.name }
    requires parts { blank.parts ≡ L.parts }
    requires some { 0 < L.parts }
{
    let mut steps = Steps::<L>::new(blank);
    is_same(rt, file.top_counted(&mut steps), 0x82_0082);
    threshold(file, Op::Write(130));
    is_same(rt, file.top_counted(&mut steps), 0);
    threshold(file, Op::Write(0));
    is_same(rt, file.claim_counted(&mut steps), 0x82_0082);
    is_same(rt, file.top(), 0x7ff_07ff);
    let mut nine = OnlyNine { steps };
    is_same(rt, search(&mut nine, 0), 0x9_0009);
    is_same(rt, search(&mut nine, 9), 0);
}

#[test]
fn the_top_of_the_largest_file_is_found_by_counted_looks(rt: HostRuntime) -> Result<(), Fail> {
    let mut file = File::new(rt.alloc(), 2047)?;
    asks(&mut file, 2047);
    asks(&mut file, 130);
    looks_are_counted::<Brand>(&rt, &mut file, Blank::new(1));
    Ok(())
}
