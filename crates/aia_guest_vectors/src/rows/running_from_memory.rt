//! Virtual harts that run from memory: who may, what they read and claim, what the host is told.
//!
//! Made of suite/rows/guests/running_from_memory.rows by suite/make: edit the rows.

ghost use Rattle.std.specs.Prelude.{◌≡◌};
ghost use Rattle.aia_model.specs.Script.{answers};
ghost use Rattle.aia_vectors.specs.Rows.{script_of, answers_of};

/// A virtual hart leaves its guest file and runs from memory: it claims, enables and pends there,
/// and has no majors; the host goes on being told. As it ceases to run the host is told once more,
/// for an identity is pending and enabled. Then it arrives and claims that one.
pub const RUNS_FROM_MEMORY_AND_ARRIVES: [(&str, &str); 23] = [
    ("machine 1 1 63 8", "ok"),
    ("vm 1 0x8 0", "ok"),
    ("arrive 0 0 0", "ok"),
    ("g 0 0 csrrw siselect 0xc0", "0x0000000000000000"),
    ("g 0 0 csrrw sireg 0xffffffffffffffff", "0x0000000000000000"),
    ("enter 0 0", "home"),
    ("leave 0 0", "ok"),
    ("enter 0 0", "ok"),
    ("arrive 0 0 0", "entered"),
    ("msi 0 0x28000000 5", "ok"),
    ("g 0 0 csrrw stopei 0", "0x0000000000050005"),
    ("g 0 0 csrrw sireg 0x20", "0xfffffffffffffffe"),
    ("g 0 0 csrr sip", "away"),
    ("g 0 0 csrrw siselect 0x80", "0x00000000000000c0"),
    ("g 0 0 csrrs sireg 0x60", "0x0000000000000000"),
    ("h 0 csrrw siselect 0x80", "0x0000000000000000"),
    ("h 0 csrrw sireg 0", "0x0000000000000002"),
    ("exit 0 0", "ok"),
    ("h 0 csrr sireg", "0x0000000000000002"),
    ("exit 0 0", "idle"),
    ("arrive 0 0 0", "ok"),
    ("g 0 0 csrrw stopei 0", "0x0000000000050005"),
    ("g 0 0 csrr stopei", "0x0000000000000000"),
];

/// Proves that the model answers [`RUNS_FROM_MEMORY_AND_ARRIVES`] as it says.
pub fn runs_from_memory_and_arrives()
    ensures { answers (script_of RUNS_FROM_MEMORY_AND_ARRIVES)
        ≡ answers_of RUNS_FROM_MEMORY_AND_ARRIVES }
{}

/// An identity that the files do not have is kept in memory, but is not seen from there, nor is one
/// enabled. One that runs from memory is in no guest file to shift from.
pub const GREAT_IDENTITIES_FROM_MEMORY: [(&str, &str); 12] = [
    ("machine 1 1 63 8", "ok"),
    ("vm 1 0x8 0", "ok"),
    ("arrive 0 0 0", "ok"),
    ("g 0 0 csrrw siselect 0xc0", "0x0000000000000000"),
    ("g 0 0 csrrw sireg 0xffffffffffffffff", "0x0000000000000000"),
    ("leave 0 0", "ok"),
    ("enter 0 0", "ok"),
    ("msi 0 0x28000000 64", "ok"),
    ("g 0 0 csrrw siselect 0x82", "0x00000000000000c0"),
    ("g 0 0 csrrs sireg 1", "0x0000000000000000"),
    ("g 0 0 csrr sireg", "0x0000000000000000"),
    ("shift 0 0 0", "parked"),
];

/// Proves that the model answers [`GREAT_IDENTITIES_FROM_MEMORY`] as it says.
pub fn great_identities_are_not_seen_from_memory()
    ensures { answers (script_of GREAT_IDENTITIES_FROM_MEMORY)
        ≡ answers_of GREAT_IDENTITIES_FROM_MEMORY }
{}

/// Stores that are in flight as a virtual hart begins to run from memory land in it while it runs,
/// in any order, and each is seen from then on.
pub const STORES_LAND_WHERE_IT_RUNS: [(&str, &str); 16] = [
    ("machine 1 2 63 8", "ok"),
    ("vm 2 0x8 0", "ok"),
    ("arrive 0 0 0", "ok"),
    ("arrive 0 1 0", "ok"),
    ("g 0 0 csrrw siselect 0xc0", "0x0000000000000000"),
    ("g 0 0 csrrw sireg 0xfffffffffffffffe", "0x0000000000000000"),
    ("leave 0 0", "ok"),
    ("h 0 csrrw siselect 0x80", "0x0000000000000000"),
    ("send 0 0x28000000 5", "ok"),
    ("send 0 0x28000000 6", "ok"),
    ("land 0 1", "ok"),
    ("enter 0 0", "ok"),
    ("g 0 0 csrr stopei", "0x0000000000060006"),
    ("land 0 0", "ok"),
    ("g 0 0 csrr stopei", "0x0000000000050005"),
    ("land 0 0", "range"),
];

/// Proves that the model answers [`STORES_LAND_WHERE_IT_RUNS`] as it says.
pub fn stores_land_where_it_runs_from_memory()
    ensures { answers (script_of STORES_LAND_WHERE_IT_RUNS) ≡ answers_of STORES_LAND_WHERE_IT_RUNS }
{}

/// One that ceases to run from memory with nothing that is pending and enabled sends no notice.
/// What it pends for itself while it runs sends none; as it ceases to run the host is told of it.
pub const NOTICE_WHERE_ONE_CEASES_TO_RUN: [(&str, &str); 17] = [
    ("machine 1 2 63 8", "ok"),
    ("vm 2 0x8 0", "ok"),
    ("arrive 0 0 0", "ok"),
    ("arrive 0 1 0", "ok"),
    ("g 0 0 csrrw siselect 0xc0", "0x0000000000000000"),
    ("g 0 0 csrrw sireg 0xfffffffffffffffe", "0x0000000000000000"),
    ("leave 0 0", "ok"),
    ("h 0 csrrw siselect 0x80", "0x0000000000000000"),
    ("enter 0 0", "ok"),
    ("exit 0 0", "ok"),
    ("h 0 csrr sireg", "0x0000000000000000"),
    ("enter 0 0", "ok"),
    ("g 0 0 csrrw siselect 0x80", "0x00000000000000c0"),
    ("g 0 0 csrrs sireg 8", "0x0000000000000000"),
    ("h 0 csrr sireg", "0x0000000000000000"),
    ("exit 0 0", "ok"),
    ("h 0 csrr sireg", "0x0000000000000002"),
];

/// Proves that the model answers [`NOTICE_WHERE_ONE_CEASES_TO_RUN`] as it says.
pub fn a_notice_where_one_ceases_to_run()
    ensures { answers (script_of NOTICE_WHERE_ONE_CEASES_TO_RUN)
        ≡ answers_of NOTICE_WHERE_ONE_CEASES_TO_RUN }
{}

/// The threshold and the delivery of one that runs from memory hold from memory too, and are
/// carried along: eithreshold is kept modulo 64, eidelivery keeps bit 0. The notice as it ceases to
/// run asks for no threshold.
pub const NUMBERS_FROM_MEMORY: [(&str, &str); 29] = [
    ("machine 1 1 63 1", "ok"),
    ("vm 1 0x8 0", "ok"),
    ("enter 0 0", "ok"),
    ("g 0 0 csrrw siselect 0x72", "0x0000000000000000"),
    ("g 0 0 csrrw sireg 69", "0x0000000000000000"),
    ("g 0 0 csrrs sireg 0", "0x0000000000000005"),
    ("g 0 0 csrrw siselect 0x70", "0x0000000000000072"),
    ("g 0 0 csrrw sireg 3", "0x0000000000000000"),
    ("g 0 0 csrrc sireg 0", "0x0000000000000001"),
    ("g 0 0 csrrw siselect 0xc0", "0x0000000000000070"),
    ("g 0 0 csrrw sireg 0xffffffffffffffff", "0x0000000000000000"),
    ("g 0 0 csrr sireg", "0xfffffffffffffffe"),
    ("msi 0 0x28000000 5", "ok"),
    ("g 0 0 csrrw stopei 0", "0x0000000000000000"),
    ("msi 0 0x28000004 0x04000000", "ok"),
    ("g 0 0 csrr stopei", "0x0000000000040004"),
    ("g 0 0 csrrc stopei 0", "0x0000000000040004"),
    ("g 0 0 csrr stopei", "0x0000000000000000"),
    ("h 0 csrrw siselect 0x80", "0x0000000000000000"),
    ("h 0 csrrw sireg 0", "0x0000000000000002"),
    ("exit 0 0", "ok"),
    ("h 0 csrr sireg", "0x0000000000000002"),
    ("arrive 0 0 0", "ok"),
    ("h 0 hgeip", "0x0000000000000000"),
    ("g 0 0 csrr stopei", "0x0000000000000000"),
    ("g 0 0 csrrw siselect 0x72", "0x00000000000000c0"),
    ("g 0 0 csrrw sireg 6", "0x0000000000000005"),
    ("g 0 0 csrr stopei", "0x0000000000050005"),
    ("h 0 hgeip", "0x0000000000000002"),
];

/// Proves that the model answers [`NUMBERS_FROM_MEMORY`] as it says.
pub fn numbers_of_a_file_from_memory()
    ensures { answers (script_of NUMBERS_FROM_MEMORY) ≡ answers_of NUMBERS_FROM_MEMORY }
{}

/// One that runs from memory stores for its peers, and they for it: it is reached in memory, as one
/// that is parked. Its majors are away there, whatever else would refuse the access, and its
/// registers are as in a guest file.
pub const PEERS_AND_MEMORY: [(&str, &str); 27] = [
    ("machine 1 1 63 1", "ok"),
    ("vm 3 0x18 0", "ok"),
    ("g 0 0 ipi 1 5", "away"),
    ("enter 0 0", "ok"),
    ("g 0 0 ipi 1 5", "ok"),
    ("g 0 0 ipi 3 5", "gfault"),
    ("g 0 0 ipi 0 7", "ok"),
    ("g 0 0 csrrw siselect 0x80", "0x0000000000000000"),
    ("g 0 0 csrr sireg", "0x0000000000000080"),
    ("enter 0 1", "ok"),
    ("g 0 1 csrrw siselect 0x80", "0x0000000000000000"),
    ("g 0 1 csrr sireg", "0x0000000000000020"),
    ("arrive 0 2 0", "ok"),
    ("g 0 2 ipi 1 6", "ok"),
    ("g 0 1 ipi 2 9", "ok"),
    ("g 0 1 csrr sireg", "0x0000000000000060"),
    ("g 0 2 csrrw siselect 0x80", "0x0000000000000000"),
    ("g 0 2 csrr sireg", "0x0000000000000200"),
    ("g 0 1 csrr stopi", "away"),
    ("g 0 1 csrr sip", "away"),
    ("g 0 1 csrrw sie 0", "away"),
    ("g 0 1 csrrw stopi 0", "away"),
    ("hvictl 0 1 0x40010105", "ok"),
    ("g 0 1 csrr sip", "away"),
    ("g 0 1 csrrw siselect 0x81", "0x0000000000000080"),
    ("g 0 1 csrr sireg", "virtual"),
    ("g 0 1 csrr siselect", "0x0000000000000081"),
];

/// Proves that the model answers [`PEERS_AND_MEMORY`] as it says.
pub fn peers_and_one_that_runs_from_memory()
    ensures { answers (script_of PEERS_AND_MEMORY) ≡ answers_of PEERS_AND_MEMORY }
{}

/// Who may begin to run from memory, and cease to, and what is refused while one runs: `home` where
/// it is resident, `entered` where it runs from memory, `busy` where it is being moved, `idle`
/// where it does not run from memory.
pub const RUNS_FROM_MEMORY_OR_MOVES: [(&str, &str); 26] = [
    ("enter 0 0", "nomachine"),
    ("exit 0 0", "nomachine"),
    ("machine 1 1 63 1", "ok"),
    ("enter 0 0", "range"),
    ("vm 2 0x8 0", "ok"),
    ("enter 0 2", "range"),
    ("exit 1 0", "range"),
    ("exit 0 0", "idle"),
    ("enter 0 0", "ok"),
    ("enter 0 0", "entered"),
    ("begin arrive 0 0 0", "entered"),
    ("begin leave 0 0", "parked"),
    ("begin shift 0 0 0", "parked"),
    ("leave 0 0", "parked"),
    ("step 0 0", "idle"),
    ("arrive 0 1 0", "ok"),
    ("enter 0 1", "home"),
    ("exit 0 1", "idle"),
    ("arrive 0 0 0", "entered"),
    ("exit 0 0", "ok"),
    ("arrive 0 0 0", "nofile"),
    ("begin leave 0 1", "ok"),
    ("enter 0 1", "busy"),
    ("exit 0 1", "idle"),
    ("enter 0", "bad"),
    ("exit 0 0 0", "bad"),
];

/// Proves that the model answers [`RUNS_FROM_MEMORY_OR_MOVES`] as it says.
pub fn who_runs_from_memory_is_on_no_move()
    ensures { answers (script_of RUNS_FROM_MEMORY_OR_MOVES) ≡ answers_of RUNS_FROM_MEMORY_OR_MOVES }
{}

/// A source that is passed to a virtual hart leads to memory while it runs from there: what its
/// wire asks for is claimed there, and the host is told.
pub const PASSED_SOURCE_FROM_MEMORY: [(&str, &str); 20] = [
    ("machine 1 1 63 8", "ok"),
    ("st 0x0c000004 0x400", "ok"),
    ("st 0x0c008004 4", "ok"),
    ("st 0x0c008000 0x104", "ok"),
    ("st 0x0c001bc4 0x2000", "ok"),
    ("st 0x0c001bc8 0x28000", "ok"),
    ("st 0x0c001bcc 0x500000", "ok"),
    ("st 0x0c009edc 1", "ok"),
    ("vm 1 0x8 0", "ok"),
    ("enter 0 0", "ok"),
    ("g 0 0 csrrw siselect 0xc0", "0x0000000000000000"),
    ("g 0 0 csrrw sireg 0x20", "0x0000000000000000"),
    ("pass 1 0 0 5", "ok"),
    ("ld 0x0c00b004", "0x00000021"),
    ("wire 1 1", "ok"),
    ("g 0 0 csrrw stopei 0", "0x0000000000050005"),
    ("h 0 csrrw siselect 0x80", "0x0000000000000000"),
    ("h 0 csrrw sireg 0", "0x0000000000000002"),
    ("exit 0 0", "ok"),
    ("h 0 csrr sireg", "0x0000000000000000"),
];

/// Proves that the model answers [`PASSED_SOURCE_FROM_MEMORY`] as it says.
pub fn a_passed_source_and_one_that_runs_from_memory()
    ensures { answers (script_of PASSED_SOURCE_FROM_MEMORY) ≡ answers_of PASSED_SOURCE_FROM_MEMORY }
{}
