//! Lines that spell no line, that come before a machine, or that name what no machine has.
//!
//! Made of suite/rows/lines.rows by suite/make: edit the rows.

ghost use Rattle.std.specs.Prelude.{◌≡◌};
ghost use Rattle.aia_model.specs.Script.{answers};
ghost use Rattle.aia_vectors.specs.Rows.{script_of, unended_script_of, answers_of};

/// A script with no line.
pub const NO_LINES: [(&str, &str); 0] = [];

/// Proves that the model answers [`NO_LINES`] as it says.
pub fn no_lines_print_nothing()
    ensures { answers (script_of NO_LINES) ≡ answers_of NO_LINES }
{}

/// No machine stands at first; a `machine` line is refused for its numbers and, once one stands, at
/// all.
pub const MACHINE_IS_REFUSED: [(&str, &str); 6] = [
    ("st 0x28000000 5", "nomachine"),
    ("machine 5 1 63 8", "range"),
    ("machine 1 1 64 8", "range"),
    ("machine 1 1 63 8", "ok"),
    ("machine 9 9 9 9", "again"),
    ("st 0x28000000", "bad"),
];

/// Proves that the model answers [`MACHINE_IS_REFUSED`] as it says.
pub fn a_machine_is_refused()
    ensures { answers (script_of MACHINE_IS_REFUSED) ≡ answers_of MACHINE_IS_REFUSED }
{}

/// A comment, a large threshold, a hart that isn't there, and texts that spell no line.
pub const NUMBERS_RANGES_AND_SPELLING: [(&str, &str); 8] = [
    ("# note", ""),
    ("machine 1 0 63 1", "ok"),
    ("h 0 csrrw siselect 0x72", "0x0000000000000000"),
    ("h 0 csrrw sireg 200", "0x0000000000000000"),
    ("h 0 csrr sireg", "0x0000000000000008"),
    ("h 1 csrr stopei", "range"),
    ("H 0 csrr stopei", "bad"),
    ("h 0  csrr stopei", "bad"),
];

/// Proves that the model answers [`NUMBERS_RANGES_AND_SPELLING`] as it says.
pub fn numbers_ranges_and_spelling()
    ensures { answers (script_of NUMBERS_RANGES_AND_SPELLING)
        ≡ answers_of NUMBERS_RANGES_AND_SPELLING }
{}

/// A comment of 128 bytes, the most that a text has; a text of 129; and a last line with no line
/// feed.
pub const LONGEST_TEXTS: [(&str, &str); 4] = [
    ("machine 1 1 63 8", "ok"),
    (
        "##########################################################################################\
         ######################################",
        "",
    ),
    (
        "##########################################################################################\
         #######################################",
        "bad",
    ),
    ("wire 1 1", "ok"),
];

/// Proves that the model answers [`LONGEST_TEXTS`] as it says.
pub fn the_longest_texts()
    ensures { answers (unended_script_of LONGEST_TEXTS) ≡ answers_of LONGEST_TEXTS }
{}

/// `wire` lines that spell no line, that come before the machine, and that name no source; a wire
/// has its level also while its source is inactive.
pub const WIRES_ARE_REFUSED: [(&str, &str); 25] = [
    ("wire 1 1", "nomachine"),
    ("wire 9 1", "nomachine"),
    ("wire 1 2", "bad"),
    ("ld 0x0c000000", "nomachine"),
    ("st 0x0c000002 0", "nomachine"),
    ("machine 1 0 63 8", "ok"),
    ("wire 0 1", "range"),
    ("wire 9 1", "range"),
    ("wire 18446744073709551615 0", "range"),
    ("wire 1 2", "bad"),
    ("wire 9 2", "bad"),
    ("wire", "bad"),
    ("wire 1", "bad"),
    ("wire 1 1 1", "bad"),
    ("wire 1 01", "bad"),
    ("wire 1 -1", "bad"),
    ("wire 1  1", "bad"),
    ("WIRE 1 1", "bad"),
    ("st 0x0c000004 6", "ok"),
    ("ld 0x0c001c00", "0x00000000"),
    ("wire 0x1 0x0000000000000001", "ok"),
    ("ld 0x0c001c00", "0x00000002"),
    ("wire 8 0x1", "ok"),
    ("st 0x0c000020 6", "ok"),
    ("ld 0x0c001c00", "0x00000102"),
];

/// Proves that the model answers [`WIRES_ARE_REFUSED`] as it says.
pub fn wires_are_refused()
    ensures { answers (script_of WIRES_ARE_REFUSED) ≡ answers_of WIRES_ARE_REFUSED }
{}

/// A number above 2^32 - 1 names no source, no hart and no place, though its low 32 bits would; a
/// level is the number 0 or 1, whole.
pub const NUMBERS_ARE_NOT_CUT: [(&str, &str); 17] = [
    ("machine 1 0 63 8", "ok"),
    ("st 0x0c000004 6", "ok"),
    ("wire 4294967297 1", "range"),
    ("wire 0x100000001 1", "range"),
    ("wire 1 4294967297", "bad"),
    ("wire 1 0x100000001", "bad"),
    ("ld 0x0c001c00", "0x00000000"),
    ("h 4294967296 csrr stopei", "range"),
    ("m 4294967296 csrr mtopei", "range"),
    ("h 4294967296 csrrw siselect 5", "range"),
    ("m 4294967296 csrrw miselect 5", "range"),
    ("h 0 csrr siselect", "0x0000000000000000"),
    ("m 0 csrr miselect", "0x0000000000000000"),
    ("pins 4294967296", "range"),
    ("pins 0", "pins 0 0 0 0"),
    ("st 0x128000000 5", "fault"),
    ("ld 0x124000000", "fault"),
];

/// Proves that the model answers [`NUMBERS_ARE_NOT_CUT`] as it says.
pub fn numbers_are_not_cut()
    ensures { answers (script_of NUMBERS_ARE_NOT_CUT) ≡ answers_of NUMBERS_ARE_NOT_CUT }
{}

/// Each number of a `machine` line is looked at whole: none that only its low 32 bits would allow
/// makes a machine.
pub const MACHINE_NUMBERS_ARE_NOT_CUT: [(&str, &str); 8] = [
    ("machine 4294967297 0 63 8", "range"),
    ("machine 1 4294967296 63 8", "range"),
    ("machine 1 0 4294967359 8", "range"),
    ("machine 1 0 63 4294967304", "range"),
    ("machine 1 0 63 0x100000008", "range"),
    ("machine 18446744073709551615 0 63 8", "range"),
    ("pins 0", "nomachine"),
    ("machine 1 0 63 8", "ok"),
];

/// Proves that the model answers [`MACHINE_NUMBERS_ARE_NOT_CUT`] as it says.
pub fn machine_numbers_are_not_cut()
    ensures { answers (script_of MACHINE_NUMBERS_ARE_NOT_CUT)
        ≡ answers_of MACHINE_NUMBERS_ARE_NOT_CUT }
{}

/// The least and the greatest of each number of a machine, and numbers of identities that no file
/// has, though each is one less than a multiple of 64.
pub const MACHINES_OF_NO_SIZE: [(&str, &str); 13] = [
    ("machine 0 0 63 8", "range"),
    ("machine 5 0 63 8", "range"),
    ("machine 1 32 63 8", "range"),
    ("machine 1 0 0 8", "range"),
    ("machine 1 0 31 8", "range"),
    ("machine 1 0 62 8", "range"),
    ("machine 1 0 191 8", "range"),
    ("machine 1 0 1535 8", "range"),
    ("machine 1 0 2048 8", "range"),
    ("machine 1 0 4095 8", "range"),
    ("machine 1 0 63 0", "range"),
    ("machine 1 0 63 1024", "range"),
    ("machine 4 31 1023 1", "ok"),
];

/// Proves that the model answers [`MACHINES_OF_NO_SIZE`] as it says.
pub fn machines_of_no_size()
    ensures { answers (script_of MACHINES_OF_NO_SIZE) ≡ answers_of MACHINES_OF_NO_SIZE }
{}

/// The value of `st` is below 2^32; one that is not spells no line, whatever its address is, and
/// stores nothing.
pub const VALUES_OF_STORES_HAVE_32_BITS: [(&str, &str); 14] = [
    ("machine 1 0 63 8", "ok"),
    ("st 0x28000000 4294967301", "bad"),
    ("st 0x28000000 0x100000005", "bad"),
    ("st 0 4294967296", "bad"),
    ("st 0x0c001bc0 4294967296", "bad"),
    ("st 0x0c001bc0 0x1ffffffff", "bad"),
    ("st 0x0c001bc0 18446744073709551615", "bad"),
    ("ld 0x0c001bc0", "0x00000000"),
    ("st 0x0c001bc0 4294967295", "ok"),
    ("ld 0x0c001bc0", "0xffffffff"),
    ("st 0x0c001bc0 0x00000000fffffffe", "ok"),
    ("ld 0x0c001bc0", "0xfffffffe"),
    ("h 0 csrrw siselect 0x80", "0x0000000000000000"),
    ("h 0 csrr sireg", "0x0000000000000000"),
];

/// Proves that the model answers [`VALUES_OF_STORES_HAVE_32_BITS`] as it says.
pub fn values_of_stores_have_32_bits()
    ensures { answers (script_of VALUES_OF_STORES_HAVE_32_BITS)
        ≡ answers_of VALUES_OF_STORES_HAVE_32_BITS }
{}

/// The greatest number that a line may spell is 2^64 - 1; a greater one spells no line, wherever it
/// stands.
pub const NUMBERS_STAY_BELOW_2_TO_64: [(&str, &str); 17] = [
    ("machine 18446744073709551617 0 63 8", "bad"),
    ("machine 1 0 63 8", "ok"),
    ("wire 18446744073709551616 0", "bad"),
    ("wire 18446744073709551617 1", "bad"),
    ("wire 99999999999999999999 1", "bad"),
    ("wire 18446744073709551615 1", "range"),
    ("pins 18446744073709551616", "bad"),
    ("pins 18446744073709551615", "range"),
    ("ld 18446744073709551616", "bad"),
    ("ld 18446744073709551612", "fault"),
    ("st 18446744074380640256 5", "bad"),
    ("h 18446744073709551616 csrr stopei", "bad"),
    ("h 18446744073709551615 csrr stopei", "range"),
    ("h 0 csrrw siselect 18446744073709551616", "bad"),
    (
        "h 0 csrrw siselect 18446744073709551615",
        "0x0000000000000000",
    ),
    (
        "h 0 csrrw siselect 0xffffffffffffffff",
        "0x0000000000000fff",
    ),
    ("h 0 csrr siselect", "0x0000000000000fff"),
];

/// Proves that the model answers [`NUMBERS_STAY_BELOW_2_TO_64`] as it says.
pub fn numbers_stay_below_2_to_64()
    ensures { answers (script_of NUMBERS_STAY_BELOW_2_TO_64)
        ≡ answers_of NUMBERS_STAY_BELOW_2_TO_64 }
{}

/// A hexadecimal number is `0x` and 1 to 16 digits in lower case, with any zeros before them; every
/// number may be written so.
pub const HEXADECIMAL_SPELLING: [(&str, &str); 21] = [
    ("machine 0x1 0x0 0x3f 0x8", "ok"),
    ("st 0x0c000004 0x6", "ok"),
    ("wire 0x 1", "bad"),
    ("wire 1 0x", "bad"),
    ("ld 0x", "bad"),
    ("wire 0x00000000000000001 1", "bad"),
    ("wire 1 0x00000000000000001", "bad"),
    ("ld 0x0000000000c001c00", "bad"),
    ("wire 0X1 1", "bad"),
    ("wire x1 1", "bad"),
    ("ld 0x0C001c00", "bad"),
    ("ld 0X0c001c00", "bad"),
    ("ld 0x0c001c0g", "bad"),
    ("st 0x0c001bc0 0xA", "bad"),
    ("ld 0x0c001c00", "0x00000000"),
    ("wire 0x0000000000000001 1", "ok"),
    ("ld 0x0c001c00", "0x00000002"),
    ("ld 0xc001c00", "0x00000002"),
    ("ld 0x000000000c001c00", "0x00000002"),
    ("ld 201333760", "0x00000002"),
    ("pins 0x0", "pins 0 0 0 0"),
];

/// Proves that the model answers [`HEXADECIMAL_SPELLING`] as it says.
pub fn hexadecimal_spelling()
    ensures { answers (script_of HEXADECIMAL_SPELLING) ≡ answers_of HEXADECIMAL_SPELLING }
{}

/// One space stands between words, and no other byte does, nor one before or after them; a line
/// that is not empty is no empty line, and a comment begins with `#`.
pub const SPACES_TABS_AND_CARRIAGE_RETURNS: [(&str, &str); 19] = [
    ("machine 1 0 63 8", "ok"),
    ("st 0x0c000004 6", "ok"),
    ("wire 1 1 ", "bad"),
    (" wire 1 1", "bad"),
    ("wire\t1 1", "bad"),
    ("wire 1\t1", "bad"),
    ("wire 1 1\t", "bad"),
    ("\twire 1 1", "bad"),
    ("wire 1 1\r", "bad"),
    ("wire\r1 1", "bad"),
    (" ", "bad"),
    ("   ", "bad"),
    ("\t", "bad"),
    ("\r", "bad"),
    (" # no comment", "bad"),
    ("\t# no comment", "bad"),
    ("# a TAB \t, a CR at the end\r", ""),
    ("ld 0x0c001c00\r", "bad"),
    ("ld 0x0c001c00", "0x00000000"),
];

/// Proves that the model answers [`SPACES_TABS_AND_CARRIAGE_RETURNS`] as it says.
pub fn spaces_tabs_and_carriage_returns()
    ensures { answers (script_of SPACES_TABS_AND_CARRIAGE_RETURNS)
        ≡ answers_of SPACES_TABS_AND_CARRIAGE_RETURNS }
{}
