//! The machine-level and the supervisor files of a machine: stores, claims, thresholds.
//!
//! Made of suite/rows/files.rows by suite/make: edit the rows.

ghost use Rattle.std.specs.Prelude.{◌≡◌};
ghost use Rattle.aia_model.specs.Script.{answers};
ghost use Rattle.aia_vectors.specs.Rows.{script_of, answers_of};

/// A store makes an identity pending; reading `stopei` leaves it there, and writing `stopei` claims
/// it.
pub const STORE_IS_CLAIMED: [(&str, &str); 8] = [
    ("machine 1 1 63 8", "ok"),
    ("h 0 csrrw siselect 0xc0", "0x0000000000000000"),
    ("h 0 csrrw sireg 0x20", "0x0000000000000000"),
    ("st 0x28000000 5", "ok"),
    ("h 0 csrr stopei", "0x0000000000050005"),
    ("h 0 csrr stopei", "0x0000000000050005"),
    ("h 0 csrrw stopei 0", "0x0000000000050005"),
    ("h 0 csrr stopei", "0x0000000000000000"),
];

/// Proves that the model answers [`STORE_IS_CLAIMED`] as it says.
pub fn a_store_is_claimed()
    ensures { answers (script_of STORE_IS_CLAIMED) ≡ answers_of STORE_IS_CLAIMED }
{}

/// The least identity is on top, if it is below the threshold; a threshold is kept modulo one more
/// than the greatest identity.
pub const THRESHOLD_AND_LEAST_IDENTITY: [(&str, &str); 13] = [
    ("machine 1 1 63 8", "ok"),
    ("h 0 csrrw siselect 0xc0", "0x0000000000000000"),
    ("h 0 csrrw sireg 0xffffffffffffffff", "0x0000000000000000"),
    ("st 0x28000000 5", "ok"),
    ("st 0x28000000 4", "ok"),
    ("h 0 csrrw siselect 0x72", "0x00000000000000c0"),
    ("h 0 csrrw sireg 5", "0x0000000000000000"),
    ("h 0 csrr stopei", "0x0000000000040004"),
    ("h 0 csrrw sireg 4", "0x0000000000000005"),
    ("h 0 csrrw stopei 0", "0x0000000000000000"),
    ("h 0 csrrw sireg 64", "0x0000000000000004"),
    ("h 0 csrr sireg", "0x0000000000000000"),
    ("h 0 csrr stopei", "0x0000000000040004"),
];

/// Proves that the model answers [`THRESHOLD_AND_LEAST_IDENTITY`] as it says.
pub fn threshold_and_least_identity()
    ensures { answers (script_of THRESHOLD_AND_LEAST_IDENTITY)
        ≡ answers_of THRESHOLD_AND_LEAST_IDENTITY }
{}

/// A store asks by either byte order, and for no number that is no identity; a load gives 0; a
/// guest's page is guarded.
pub const STORES_LOADS_AND_GUARDED_PAGES: [(&str, &str); 15] = [
    ("machine 1 1 63 8", "ok"),
    ("h 0 csrrw siselect 0xc0", "0x0000000000000000"),
    ("h 0 csrrw sireg 0xffffffffffffffff", "0x0000000000000000"),
    ("h 0 csrr sireg", "0xfffffffffffffffe"),
    ("st 0x28000004 0x05000000", "ok"),
    ("st 0x28000000 0", "ok"),
    ("st 0x28000000 64", "ok"),
    ("st 0x28000000 0xffffffff", "ok"),
    ("st 0x28000008 7", "ok"),
    ("ld 0x28000000", "0x00000000"),
    ("st 0x28000002 1", "fault"),
    ("st 0x28001000 1", "guarded"),
    ("st 0x28002000 1", "fault"),
    ("h 0 csrrw siselect 0x80", "0x00000000000000c0"),
    ("h 0 csrr sireg", "0x0000000000000020"),
];

/// Proves that the model answers [`STORES_LOADS_AND_GUARDED_PAGES`] as it says.
pub fn stores_loads_and_guarded_pages()
    ensures { answers (script_of STORES_LOADS_AND_GUARDED_PAGES)
        ≡ answers_of STORES_LOADS_AND_GUARDED_PAGES }
{}

/// The machine-level file, by its own CSRs and page; setting no bit of `mtopei` claims all the
/// same.
pub const MACHINE_LEVEL_SETS_AND_CLEARS: [(&str, &str); 12] = [
    ("machine 1 0 63 1", "ok"),
    ("m 0 csrrw miselect 0xc0", "0x0000000000000000"),
    ("m 0 csrrw mireg 6", "0x0000000000000000"),
    ("st 0x24000000 1", "ok"),
    ("st 0x24000004 0x02000000", "ok"),
    ("m 0 csrrs mtopei 0", "0x0000000000010001"),
    ("m 0 csrr mtopei", "0x0000000000020002"),
    ("m 0 csrrc mireg 4", "0x0000000000000006"),
    ("m 0 csrr mtopei", "0x0000000000000000"),
    ("m 0 csrrw miselect 0xff", "0x00000000000000c0"),
    ("m 0 csrr mireg", "illegal"),
    ("st 0x24001000 1", "fault"),
];

/// Proves that the model answers [`MACHINE_LEVEL_SETS_AND_CLEARS`] as it says.
pub fn machine_level_sets_and_clears()
    ensures { answers (script_of MACHINE_LEVEL_SETS_AND_CLEARS)
        ≡ answers_of MACHINE_LEVEL_SETS_AND_CLEARS }
{}

/// A store to a file's page and one to a domain, each read where it went.
pub const FILES_AND_DOMAINS_ARE_APART: [(&str, &str); 15] = [
    ("machine 1 0 63 8", "ok"),
    ("st 0x28000000 5", "ok"),
    ("st 0x24000000 6", "ok"),
    ("st 0x0c000004 6", "ok"),
    ("st 0x0c001edc 1", "ok"),
    ("wire 1 1", "ok"),
    ("h 0 csrrw siselect 0x80", "0x0000000000000000"),
    ("h 0 csrr sireg", "0x0000000000000020"),
    ("m 0 csrrw miselect 0x80", "0x0000000000000000"),
    ("m 0 csrr mireg", "0x0000000000000040"),
    ("ld 0x28000000", "0x00000000"),
    ("ld 0x0c001c00", "0x00000002"),
    ("ld 0x0c001e00", "0x00000002"),
    ("h 0 csrrw sireg 0", "0x0000000000000020"),
    ("ld 0x0c001c00", "0x00000002"),
];

/// Proves that the model answers [`FILES_AND_DOMAINS_ARE_APART`] as it says.
pub fn files_and_domains_are_apart()
    ensures { answers (script_of FILES_AND_DOMAINS_ARE_APART)
        ≡ answers_of FILES_AND_DOMAINS_ARE_APART }
{}

/// eidelivery keeps bit 0 of a write, so 2 and 0x40000000 leave a file off, and 3 turns it on.
pub const EIDELIVERY_KEEPS_BIT_0: [(&str, &str); 24] = [
    ("machine 1 0 63 8", "ok"),
    ("h 0 csrrw siselect 0xc0", "0x0000000000000000"),
    ("h 0 csrrw sireg 2", "0x0000000000000000"),
    ("st 0x28000000 1", "ok"),
    ("h 0 csrrw siselect 0x70", "0x00000000000000c0"),
    ("h 0 csrrw sireg 2", "0x0000000000000000"),
    ("h 0 csrr sireg", "0x0000000000000000"),
    ("h 0 csrrw sireg 0x40000000", "0x0000000000000000"),
    ("h 0 csrr sireg", "0x0000000000000000"),
    ("pins 0", "pins 0 0 0 0"),
    ("h 0 csrrw sireg 3", "0x0000000000000000"),
    ("h 0 csrr sireg", "0x0000000000000001"),
    ("pins 0", "pins 0 0 0 1"),
    ("h 0 csrrs sireg 0x8000000000000002", "0x0000000000000001"),
    ("h 0 csrrc sireg 0xfffffffffffffffe", "0x0000000000000001"),
    ("h 0 csrr sireg", "0x0000000000000001"),
    ("h 0 csrrw sireg 0xfffffffffffffffe", "0x0000000000000001"),
    ("h 0 csrr sireg", "0x0000000000000000"),
    ("pins 0", "pins 0 0 0 0"),
    ("m 0 csrrw miselect 0x70", "0x0000000000000000"),
    ("m 0 csrrw mireg 0x40000000", "0x0000000000000000"),
    ("m 0 csrrs mireg 2", "0x0000000000000000"),
    ("m 0 csrrw mireg 0xffffffff", "0x0000000000000000"),
    ("m 0 csrr mireg", "0x0000000000000001"),
];

/// Proves that the model answers [`EIDELIVERY_KEEPS_BIT_0`] as it says.
pub fn eidelivery_keeps_bit_0()
    ensures { answers (script_of EIDELIVERY_KEEPS_BIT_0) ≡ answers_of EIDELIVERY_KEEPS_BIT_0 }
{}
