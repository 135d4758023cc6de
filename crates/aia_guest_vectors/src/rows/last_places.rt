//! The last places of a machine: its last guest file, VM, virtual hart, slot and entry.
//!
//! Made of suite/rows/guests/last_places.rows by suite/make: edit the rows.

ghost use Rattle.std.specs.Prelude.{◌≡◌};
ghost use Rattle.aia_model.specs.Script.{answers};
ghost use Rattle.aia_vectors.specs.Rows.{script_of, answers_of};

/// Virtual harts of two VMs take all 31 guest files of hart 1. What is asked for at the last one
/// shows at bit 31 of hgeip, and goes with a shift; the next one that takes it finds it empty.
pub const LAST_GUEST_FILE_OF_A_HART: [(&str, &str); 65] = [
    ("machine 2 31 63 1", "ok"),
    ("vm 16 0xf 0", "ok"),
    ("vm 16 0xf 1", "ok"),
    ("arrive 0 0 1", "ok"),
    ("arrive 0 1 1", "ok"),
    ("arrive 0 2 1", "ok"),
    ("arrive 0 3 1", "ok"),
    ("arrive 0 4 1", "ok"),
    ("arrive 0 5 1", "ok"),
    ("arrive 0 6 1", "ok"),
    ("arrive 0 7 1", "ok"),
    ("arrive 0 8 1", "ok"),
    ("arrive 0 9 1", "ok"),
    ("arrive 0 10 1", "ok"),
    ("arrive 0 11 1", "ok"),
    ("arrive 0 12 1", "ok"),
    ("arrive 0 13 1", "ok"),
    ("arrive 0 14 1", "ok"),
    ("arrive 0 15 1", "ok"),
    ("arrive 1 0 1", "ok"),
    ("arrive 1 1 1", "ok"),
    ("arrive 1 2 1", "ok"),
    ("arrive 1 3 1", "ok"),
    ("arrive 1 4 1", "ok"),
    ("arrive 1 5 1", "ok"),
    ("arrive 1 6 1", "ok"),
    ("arrive 1 7 1", "ok"),
    ("arrive 1 8 1", "ok"),
    ("arrive 1 9 1", "ok"),
    ("arrive 1 10 1", "ok"),
    ("arrive 1 11 1", "ok"),
    ("arrive 1 12 1", "ok"),
    ("arrive 1 13 1", "ok"),
    ("arrive 1 14 1", "ok"),
    ("arrive 1 15 1", "nofile"),
    ("shift 1 14 1", "nofile"),
    ("g 1 14 csrrw siselect 0xc0", "0x0000000000000000"),
    ("g 1 14 csrrw sireg 0x20", "0x0000000000000000"),
    ("g 1 14 csrrw siselect 0x70", "0x00000000000000c0"),
    ("g 1 14 csrrw sireg 1", "0x0000000000000000"),
    ("msi 1 0x2800e000 5", "ok"),
    ("h 1 hgeip", "0x0000000080000000"),
    ("h 0 hgeip", "0x0000000000000000"),
    ("g 1 14 csrr stopei", "0x0000000000050005"),
    ("g 1 13 csrr stopei", "0x0000000000000000"),
    ("shift 1 14 0", "ok"),
    ("h 1 hgeip", "0x0000000000000000"),
    ("h 0 hgeip", "0x0000000000000002"),
    ("arrive 1 15 1", "ok"),
    ("g 1 15 csrr stopei", "0x0000000000000000"),
    ("g 1 15 csrrw siselect 0xc0", "0x0000000000000000"),
    ("g 1 15 csrrw sireg 0x60", "0x0000000000000000"),
    ("g 1 15 csrrw siselect 0x70", "0x00000000000000c0"),
    ("g 1 15 csrrw sireg 1", "0x0000000000000000"),
    ("g 1 14 ipi 15 6", "ok"),
    ("h 1 hgeip", "0x0000000080000000"),
    ("g 1 15 csrrw stopei 0", "0x0000000000060006"),
    ("h 1 hgeip", "0x0000000000000000"),
    ("g 1 14 csrrw stopei 0", "0x0000000000050005"),
    ("h 0 hgeip", "0x0000000000000000"),
    ("g 1 15 ipi 16 6", "gfault"),
    ("leave 0 0", "ok"),
    ("shift 1 15 1", "ok"),
    ("leave 0 1", "ok"),
    ("arrive 1 15 1", "home"),
];

/// Proves that the model answers [`LAST_GUEST_FILE_OF_A_HART`] as it says.
pub fn the_last_guest_file_of_a_hart()
    ensures { answers (script_of LAST_GUEST_FILE_OF_A_HART) ≡ answers_of LAST_GUEST_FILE_OF_A_HART }
{}

/// The last virtual hart of the last VM, which has as many as a VM may have: its file is in the
/// last slot, by the last entry of the last table, and its notice is identity 32 at its VM's notice
/// hart.
pub const LAST_SLOT_OF_MEMORY: [(&str, &str); 40] = [
    ("machine 2 1 63 1", "ok"),
    ("vm 2 0x1 0", "ok"),
    ("vm 2 0x1 0", "ok"),
    ("vm 2 0x1 0", "ok"),
    ("vm 2 0x1 0", "ok"),
    ("vm 2 0x1 0", "ok"),
    ("vm 3 0x3 0", "ok"),
    ("vm 3 0x3 0", "ok"),
    ("msi 7 0x2800f000 9", "range"),
    ("vm 17 0xf 1", "range"),
    ("vm 16 0xf 1", "ok"),
    ("vm 1 0x1 0", "full"),
    ("arrive 7 15 0", "ok"),
    ("g 7 15 csrrw siselect 0xc0", "0x0000000000000000"),
    ("g 7 15 csrrw sireg 0x220", "0x0000000000000000"),
    ("leave 7 15", "ok"),
    ("h 0 csrrw siselect 0x80", "0x0000000000000000"),
    ("h 1 csrrw siselect 0x80", "0x0000000000000000"),
    ("msi 7 0x2800f000 9", "ok"),
    ("h 1 csrrw sireg 0", "0x0000000100000000"),
    ("msi 7 0x2800f000 3", "ok"),
    ("msi 7 0x2800e000 9", "ok"),
    ("msi 6 0x28002000 9", "ok"),
    ("msi 6 0x28003000 9", "notvalid"),
    ("h 1 csrr sireg", "0x0000000000000000"),
    ("h 0 csrr sireg", "0x0000000000000000"),
    ("arrive 7 15 1", "ok"),
    ("g 7 15 csrrw stopei 0", "0x0000000000090009"),
    ("g 7 15 csrrw stopei 0", "0x0000000000000000"),
    ("g 7 15 csrrw siselect 0x80", "0x00000000000000c0"),
    ("g 7 15 csrr sireg", "0x0000000000000008"),
    ("arrive 7 0 0", "ok"),
    ("g 7 0 ipi 15 5", "ok"),
    ("g 7 15 csrrw stopei 0", "0x0000000000050005"),
    ("g 7 0 ipi 14 9", "ok"),
    ("g 7 0 ipi 16 5", "gfault"),
    ("g 7 16 csrr stopei", "range"),
    ("g 8 0 csrr stopei", "range"),
    ("leave 7 16", "range"),
    ("arrive 8 0 0", "range"),
];

/// Proves that the model answers [`LAST_SLOT_OF_MEMORY`] as it says.
pub fn the_last_slot_of_memory()
    ensures { answers (script_of LAST_SLOT_OF_MEMORY) ≡ answers_of LAST_SLOT_OF_MEMORY }
{}

/// The last virtual hart of the last VM leaves its guest file step by step, with a store in flight
/// and a refetch before the fence: nothing is lost, and the host is told by identity 32. Lines name
/// this virtual hart, and none beyond it.
pub const LEAVE_OF_THE_LAST_VIRTUAL_HART: [(&str, &str); 53] = [
    ("machine 1 1 63 1", "ok"),
    ("vm 2 0x1 0", "ok"),
    ("vm 2 0x1 0", "ok"),
    ("vm 2 0x1 0", "ok"),
    ("vm 2 0x1 0", "ok"),
    ("vm 2 0x1 0", "ok"),
    ("vm 3 0x3 0", "ok"),
    ("vm 3 0x3 0", "ok"),
    ("vm 16 0xf 0", "ok"),
    ("inject 7 15 9 1", "ok"),
    ("inject 7 16 9 1", "range"),
    ("hvictl 7 15 0x100", "ok"),
    ("hviprio 7 15 0", "ok"),
    ("hviprio 8 0 0", "range"),
    ("arrive 7 15 0", "ok"),
    ("g 7 15 csrrw sie 0x200", "0x0000000000000000"),
    ("g 7 15 csrr stopi", "0x00000000000900ff"),
    ("inject 7 15 9 0", "ok"),
    ("g 7 15 csrrw siselect 0xc0", "0x0000000000000000"),
    (
        "g 7 15 csrrw sireg 0xfffffffffffffffe",
        "0x0000000000000000",
    ),
    ("h 0 csrrw siselect 0x80", "0x0000000000000000"),
    ("send 7 0x2800f000 5", "ok"),
    ("send 8 0x28000000 5", "range"),
    ("land 8 0", "range"),
    ("begin leave 7 15", "ok"),
    ("begin leave 7 16", "range"),
    ("step 7 15", "moving"),
    ("step 7 15", "moving"),
    ("step 7 15", "moving"),
    ("refetch 7 16", "range"),
    ("refetch 7 15", "ok"),
    ("msi 7 0x2800f000 6", "ok"),
    ("step 7 15", "moving"),
    ("land 7 0", "range"),
    ("step 7 15", "moving"),
    ("step 7 15", "moving"),
    ("step 7 15", "moving"),
    ("step 7 15", "moving"),
    ("step 7 15", "moving"),
    ("step 7 15", "moving"),
    ("step 7 15", "moving"),
    ("step 7 15", "moving"),
    ("h 0 csrr sireg", "0x0000000000000000"),
    ("step 7 15", "done"),
    ("h 0 csrrw sireg 0", "0x0000000100000000"),
    ("step 7 16", "range"),
    ("msi 7 0x2800f000 7", "ok"),
    ("h 0 csrrw sireg 0", "0x0000000100000000"),
    ("arrive 7 15 0", "ok"),
    ("g 7 15 csrrw stopei 0", "0x0000000000050005"),
    ("g 7 15 csrrw stopei 0", "0x0000000000060006"),
    ("g 7 15 csrrw stopei 0", "0x0000000000070007"),
    ("g 7 15 csrrw stopei 0", "0x0000000000000000"),
];

/// Proves that the model answers [`LEAVE_OF_THE_LAST_VIRTUAL_HART`] as it says.
pub fn the_leave_of_the_last_virtual_hart()
    ensures { answers (script_of LEAVE_OF_THE_LAST_VIRTUAL_HART)
        ≡ answers_of LEAVE_OF_THE_LAST_VIRTUAL_HART }
{}
