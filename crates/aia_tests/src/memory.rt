//! Memory, and what it keeps of guests that no hart holds.

ghost use Rattle.std.specs.Prelude.{◌≡◌, ◌-◌, ◌<◌, false};
ghost use Rattle.aia_regs.specs.declared.limits.TheConstants.{SLOTS};
ghost use Rattle.aia_word.specs.Sets.{has_bit};
ghost use Rattle.aia_file.specs.Words.{HasSlot};

use crate::same;
use aia_file::{File, Stored};
use aia_mrif::{SlotMut, look};
use aia_ram::Ram;
use aia_regs::FileReg;
use aia_regs::limits::{MEMORY_WORDS, SLOTS};
use aia_word::Bank;
use std::test::Fail;

#[test]
fn memory_keeps_its_words(rt: HostRuntime) -> Result<(), Fail> {
    let mut ram = Ram::new(rt.alloc(), 28)?;
    for (at, there) in [
        (0, true),
        (4, false),
        (8, true),
        (9, false),
        (16, true),
        (24, false),
        (usize::MAX, false),
    ] {
        same!(rt; ram.has_word_at(at), there; at);
    }
    same!(rt; ram.load(8), 0);
    ram.store(8, 0x0123_4567_89ab_cdef);
    ram.or(8, 0x1000_0000_0000_0010);
    same!(rt; ram.swap(8, 5), 0x1123_4567_89ab_cdff);
    same!(rt; ram.load(8), 5);
    same!(rt; ram.load(0), 0);
    same!(rt; ram.load(16), 0);
    Ok(())
}

/// Stores to slot 1 of memory.
fn lands(ram: &mut Ram, offset: u32, value: u32) -> Stored
    requires { HasSlot ram.old 1 }
    ensures { HasSlot ram.new 1 }
{
    let mut slot = SlotMut { ram, q: 1 };
    slot.land(offset, value)
}

/// Stores to the last slot of memory.
fn lands_last(ram: &mut Ram, value: u32) -> Stored
    requires { HasSlot ram.old (SLOTS - 1) }
    ensures { HasSlot ram.new (SLOTS - 1) }
{
    let mut slot = SlotMut { ram, q: SLOTS - 1 };
    slot.land(0, value)
}

/// Reads a word of memory, where it is there.
fn word_at(ram: &Ram, at: usize) -> Option<u64> {
    if ram.has_word_at(at) {
        Some(ram.load(at))
    } else {
        None
    }
}

#[test]
fn the_last_slot_ends_where_tables_begin(rt: HostRuntime) -> Result<(), Fail> {
    let mut ram = Ram::new(rt.alloc(), 8 * MEMORY_WORDS)?;
    same!(rt; lands_last(&mut ram, 5), Stored::Quiet);
    same!(rt; lands_last(&mut ram, 2047), Stored::Quiet);
    same!(rt; look(&ram, SLOTS - 1, 0), (0x20, 0));
    same!(rt; look(&ram, SLOTS - 1, 31), (1 << 63, 0));
    let words = [
        (0x3df8, Some(0)),
        (0x3e00, Some(0x20)),
        (0x3ff0, Some(1 << 63)),
        (0x3ff8, Some(0)),
        (0x4000, Some(0)),
        (0xbff8, Some(0)),
        (0xc000, None),
    ];
    for (at, word) in words {
        same!(rt; word_at(&ram, at), word; at);
    }
    Ok(())
}

#[test]
fn a_store_to_a_slot_is_noticed_where_enabled(rt: HostRuntime) -> Result<(), Fail> {
    let mut ram = Ram::new(rt.alloc(), 1536)?;
    ram.store(520, 0x20);
    same!(rt; lands(&mut ram, 0, 5), Stored::Notice);
    same!(rt; lands(&mut ram, 0, 5), Stored::Notice);
    same!(rt; lands(&mut ram, 4, 0x0500_0000), Stored::Notice);
    same!(rt; lands(&mut ram, 0, 6), Stored::Quiet);
    same!(rt; lands(&mut ram, 0, 0), Stored::Discarded);
    same!(rt; lands(&mut ram, 0, 2048), Stored::Discarded);
    same!(rt; lands(&mut ram, 8, 5), Stored::Discarded);
    same!(rt; look(&ram, 1, 0), (0x60, 0x20));
    same!(rt; lands(&mut ram, 0, 2047), Stored::Quiet);
    same!(rt; look(&ram, 1, 31), (1 << 63, 0));
    same!(rt; look(&ram, 0, 31), (0, 0));
    Ok(())
}

/// Takes what is pending among the identities 1 to 63.
fn taken<B: Bank>(bank: &mut B) -> u64
    requires { 0 < B.width bank.old }
    ensures { B.width bank.new ≡ B.width bank.old }
{
    bank.swap_pending(0, 0)
}

/// Puts pending and enabled identities of 1 to 63, and gives those that were enabled.
fn put<B: Bank>(bank: &mut B, pending: u64, enabled: u64) -> u64
    requires word { 0 < B.width bank.old }
    requires pending { has_bit pending 0 ≡ false }
    requires enabled { has_bit enabled 0 ≡ false }
    ensures { B.width bank.new ≡ B.width bank.old }
{
    bank.or_pending(0, pending);
    bank.swap_enable(0, enabled)
}

#[test]
fn a_file_is_a_bank(rt: HostRuntime) -> Result<(), Fail> {
    let mut file = File::new(rt.alloc(), 127)?;
    same!(rt; file.words(), 2);
    file.land(0, 3);
    file.land(0, 65);
    file.write(FileReg::Enable(0), 0b10);
    same!(rt; put(&mut file, 0b100, 0b110), 0b10);
    same!(rt; file.read(FileReg::Enable(0)), 0b110);
    same!(rt; taken(&mut file), 0b1100);
    same!(rt; file.read(FileReg::Pending(0)), 0);
    same!(rt; file.read(FileReg::Pending(2)), 0b10);
    Ok(())
}

#[test]
fn a_slot_is_a_bank(rt: HostRuntime) -> Result<(), Fail> {
    let mut ram = Ram::new(rt.alloc(), 512)?;
    let mut slot = SlotMut {
        ram: &mut ram,
        q: 0,
    };
    same!(rt; slot.words(), 32);
    same!(rt; slot.land(0, 3), Stored::Quiet);
    same!(rt; slot.land(0, 65), Stored::Quiet);
    same!(rt; put(&mut slot, 0b100, 0b110), 0);
    same!(rt; slot.land(0, 2), Stored::Notice);
    same!(rt; taken(&mut slot), 0b1100);
    same!(rt; put(&mut slot, 0, 0), 0b110);
    same!(rt; slot.land(0, 2), Stored::Quiet);
    same!(rt; slot.swap_pending(1, 0), 0b10);
    Ok(())
}

/// Of the identities 1 to 127; what the slot keeps above them stays, and is not seen.
#[test]
fn a_slot_is_read_and_claimed_as_a_file(rt: HostRuntime) -> Result<(), Fail> {
    let mut ram = Ram::new(rt.alloc(), 512)?;
    let mut slot = SlotMut {
        ram: &mut ram,
        q: 0,
    };
    same!(rt; slot.write_reg(FileReg::Enable(0), 127, u64::MAX), 0);
    same!(rt; slot.read_reg(FileReg::Enable(0), 127), !1);
    same!(rt; slot.land(0, 5), Stored::Notice);
    same!(rt; slot.land(0, 70), Stored::Quiet);
    same!(rt; slot.land(0, 130), Stored::Quiet);
    same!(rt; slot.read_reg(FileReg::Pending(0), 127), 0x20);
    same!(rt; slot.read_reg(FileReg::Pending(2), 127), 0x40);
    same!(rt; slot.write_reg(FileReg::Pending(4), 127, 9), 0);
    same!(rt; slot.read_reg(FileReg::Pending(4), 127), 0);
    same!(rt; slot.read_reg(FileReg::Pending(4), 255), 4);
    same!(rt; slot.top(127, 0), 0x5_0005);
    same!(rt; slot.top(127, 5), 0);
    same!(rt; slot.claim(127, 5), 0);
    same!(rt; slot.claim(127, 6), 0x5_0005);
    same!(rt; slot.claim(127, 0), 0);
    same!(rt; slot.write_reg(FileReg::Enable(2), 127, 0xc0), 0);
    same!(rt; slot.claim(127, 0), 0x46_0046);
    same!(rt; slot.write_reg(FileReg::Pending(2), 127, 0x80), 0);
    same!(rt; slot.top(127, 0), 0x47_0047);
    Ok(())
}
