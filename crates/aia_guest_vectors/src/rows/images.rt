//! Images of virtual harts that are parked: what is saved, and what loads make of one.
//!
//! Made of suite/rows/guests/images.rows by suite/make: edit the rows.

ghost use Rattle.std.specs.Prelude.{◌≡◌};
ghost use Rattle.aia_model.specs.Script.{answers};
ghost use Rattle.aia_vectors.specs.Rows.{script_of, answers_of};

/// A virtual hart leaves its guest file, and each part of its image is saved: what is pending and
/// enabled in its file, and its numbers.
pub const SAVED_PARTS: [(&str, &str); 12] = [
    ("machine 1 1 63 8", "ok"),
    ("vm 1 0x8 0", "ok"),
    ("arrive 0 0 0", "ok"),
    ("g 0 0 csrrw siselect 0xc0", "0x0000000000000000"),
    ("g 0 0 csrrw sireg 0xffffffffffffffff", "0x0000000000000000"),
    ("msi 0 0x28000000 5", "ok"),
    ("leave 0 0", "ok"),
    ("save 0 0 0", "image 1 63 0 0 0x00000000000000c0"),
    ("save 0 0 1", "majors 0x0000000000000000 0x0000000000000000"),
    ("save 0 0 2", "prio 0x0000000000000000 0x0000000000000000"),
    ("save 0 0 3", "word 0 0x0000000000000020 0xfffffffffffffffe"),
    ("save 0 0 4", "range"),
];

/// Proves that the model answers [`SAVED_PARTS`] as it says.
pub fn the_parts_of_an_image_are_saved()
    ensures { answers (script_of SAVED_PARTS) ≡ answers_of SAVED_PARTS }
{}

/// The parts of an image are loaded into a virtual hart to which nothing was said. The host is told
/// of what is pending and enabled; in a guest file it is claimed. Then it is parked no longer.
pub const LOADED_PARTS: [(&str, &str); 12] = [
    ("machine 1 1 63 8", "ok"),
    ("vm 2 0x8 0", "ok"),
    ("load 0 1 image 1 63 0 0 0xc0", "ok"),
    ("load 0 1 majors 0 0", "ok"),
    ("load 0 1 prio 0 0", "ok"),
    ("load 0 1 word 0 0x20 0xfffffffffffffffe", "ok"),
    ("h 0 csrrw siselect 0x80", "0x0000000000000000"),
    ("h 0 csrr sireg", "0x0000000000000004"),
    ("arrive 0 1 0", "ok"),
    ("g 0 1 csrrw stopei 0", "0x0000000000050005"),
    ("load 0 1 prio 0 0", "home"),
    ("load 0 0 image 2 63 0 0 0", "range"),
];

/// Proves that the model answers [`LOADED_PARTS`] as it says.
pub fn a_loaded_image_is_the_guest()
    ensures { answers (script_of LOADED_PARTS) ≡ answers_of LOADED_PARTS }
{}

/// A loaded word adds to what is pending, and its enables replace those that were. Words that no
/// image of such a file has are refused, and so are registers and numbers that can't be theirs.
pub const LOADS_ADD_AND_REPLACE: [(&str, &str); 20] = [
    ("machine 1 1 63 8", "ok"),
    ("vm 1 0x8 0", "ok"),
    ("arrive 0 0 0", "ok"),
    ("g 0 0 csrrw siselect 0xc0", "0x0000000000000000"),
    ("g 0 0 csrrw sireg 0xffffffffffffffff", "0x0000000000000000"),
    ("msi 0 0x28000000 5", "ok"),
    ("leave 0 0", "ok"),
    ("load 0 0 word 0 0x40 0x40", "ok"),
    ("save 0 0 3", "word 0 0x0000000000000060 0x0000000000000040"),
    ("load 0 0 word 1 0 0", "range"),
    ("load 0 0 word 0 1 0", "range"),
    ("load 0 0 word 0 0 1", "range"),
    ("load 0 0 prio 0 0x40000000", "range"),
    ("load 0 0 prio 0 0x40400000", "range"),
    ("load 0 0 prio 0 0x403f0000", "ok"),
    ("load 0 0 majors 1 0", "range"),
    ("load 0 0 image 1 63 2 0 0", "bad"),
    ("load 0 0 image 1 63 1 64 0", "range"),
    ("load 0 0 image 1 63 1 63 0xfff", "ok"),
    ("save 0 0 0", "image 1 63 1 63 0x0000000000000fff"),
];

/// Proves that the model answers [`LOADS_ADD_AND_REPLACE`] as it says.
pub fn loads_add_what_is_pending_and_replace_enables()
    ensures { answers (script_of LOADS_ADD_AND_REPLACE) ≡ answers_of LOADS_ADD_AND_REPLACE }
{}

/// An image is saved of a virtual hart that is parked, and loaded into one, and else refused by
/// where it is; `range` comes before that.
pub const IMAGES_OF_PARKED_ALONE: [(&str, &str); 34] = [
    ("save 0 0 0", "nomachine"),
    ("load 0 0 word 0 0 0", "nomachine"),
    ("machine 1 2 63 8", "ok"),
    ("save 0 0 0", "range"),
    ("vm 1 0x8 0", "ok"),
    ("save 0 1 0", "range"),
    ("load 0 1 majors 0 0", "range"),
    ("enter 0 0", "ok"),
    ("save 0 0 0", "entered"),
    ("load 0 0 majors 0 0", "entered"),
    ("save 0 0 4", "range"),
    ("exit 0 0", "ok"),
    ("save 0 0 1", "majors 0x0000000000000000 0x0000000000000000"),
    ("arrive 0 0 0", "ok"),
    ("save 0 0 0", "home"),
    ("load 0 0 word 0 2 0", "home"),
    ("load 0 0 word 0 1 0", "range"),
    ("begin leave 0 0", "ok"),
    ("save 0 0 3", "busy"),
    ("load 0 0 prio 0 0", "busy"),
    ("step 0 0", "moving"),
    ("step 0 0", "moving"),
    ("step 0 0", "moving"),
    ("step 0 0", "moving"),
    ("step 0 0", "moving"),
    ("step 0 0", "moving"),
    ("step 0 0", "moving"),
    ("step 0 0", "moving"),
    ("step 0 0", "moving"),
    ("step 0 0", "moving"),
    ("step 0 0", "moving"),
    ("step 0 0", "moving"),
    ("step 0 0", "done"),
    ("save 0 0 3", "word 0 0x0000000000000000 0x0000000000000000"),
];

/// Proves that the model answers [`IMAGES_OF_PARKED_ALONE`] as it says.
pub fn images_are_of_parked_virtual_harts_alone()
    ensures { answers (script_of IMAGES_OF_PARKED_ALONE) ≡ answers_of IMAGES_OF_PARKED_ALONE }
{}

/// The host is told of a loaded word exactly where an identity of that word is both pending and
/// enabled then, whichever made it so; no other part tells it.
pub const LOADED_WORDS_TELL_THE_HOST: [(&str, &str); 21] = [
    ("machine 1 0 127 8", "ok"),
    ("vm 2 0x8 0", "ok"),
    ("h 0 csrrw siselect 0x80", "0x0000000000000000"),
    ("load 0 1 word 0 0x40 0", "ok"),
    ("h 0 csrr sireg", "0x0000000000000000"),
    ("load 0 1 word 1 0x40 0x40", "ok"),
    ("h 0 csrrw sireg 0", "0x0000000000000004"),
    ("load 0 1 word 1 0 0x40", "ok"),
    ("h 0 csrrw sireg 0", "0x0000000000000004"),
    ("load 0 1 word 0 0 0", "ok"),
    ("h 0 csrr sireg", "0x0000000000000000"),
    ("load 0 1 word 0 0 0x40", "ok"),
    ("h 0 csrrw sireg 0", "0x0000000000000004"),
    ("load 0 1 word 1 0x80 0", "ok"),
    ("h 0 csrr sireg", "0x0000000000000000"),
    ("save 0 1 3", "word 0 0x0000000000000040 0x0000000000000040"),
    ("save 0 1 4", "word 1 0x00000000000000c0 0x0000000000000000"),
    ("load 0 1 image 1 127 1 3 0", "ok"),
    ("load 0 1 majors 0x2222 0x2222", "ok"),
    ("h 0 csrr sireg", "0x0000000000000000"),
    ("save 0 1 5", "range"),
];

/// Proves that the model answers [`LOADED_WORDS_TELL_THE_HOST`] as it says.
pub fn loaded_words_tell_the_host()
    ensures { answers (script_of LOADED_WORDS_TELL_THE_HOST)
        ≡ answers_of LOADED_WORDS_TELL_THE_HOST }
{}

/// The injected majors of an image are written whole, the external one among them, and so are
/// `sie`, `hviprio1` and `hvictl`; a number that one of these can't hold is refused.
pub const LOADED_MAJORS: [(&str, &str); 26] = [
    ("machine 1 1 63 8", "ok"),
    ("vm 1 0x8 0", "ok"),
    ("load 0 0 majors 0x2222 0x2002", "ok"),
    ("save 0 0 1", "majors 0x0000000000002222 0x0000000000002002"),
    ("load 0 0 majors 0x200 0x2222", "ok"),
    ("save 0 0 1", "majors 0x0000000000000200 0x0000000000002222"),
    ("load 0 0 majors 0x2 0x1", "range"),
    ("load 0 0 majors 0x8 0", "range"),
    ("load 0 0 majors 0x10000 0", "range"),
    ("load 0 0 prio 0xff00ff00ff00 0x4fff03ff", "range"),
    ("load 0 0 prio 0xff00ff00ff00 0xfff03ff", "ok"),
    ("save 0 0 2", "prio 0x0000ff00ff00ff00 0x000000000fff03ff"),
    ("load 0 0 prio 1 0", "range"),
    ("load 0 0 prio 0x1000000000000 0", "range"),
    ("load 0 0 prio 0 0x400", "range"),
    ("load 0 0 prio 0 0x10000000", "range"),
    ("load 0 0 prio 0 0x40010000", "ok"),
    ("save 0 0 2", "prio 0x0000000000000000 0x0000000040010000"),
    ("save 0 0 1", "majors 0x0000000000000200 0x0000000000002222"),
    ("arrive 0 0 0", "ok"),
    ("g 0 0 csrr sie", "virtual"),
    ("g 0 0 csrr stopi", "0x0000000000010001"),
    ("hvictl 0 0 0", "ok"),
    ("g 0 0 csrr sip", "0x0000000000000200"),
    ("g 0 0 csrr sie", "0x0000000000002222"),
    ("g 0 0 csrr stopi", "0x0000000000090001"),
];

/// Proves that the model answers [`LOADED_MAJORS`] as it says.
pub fn loaded_majors_and_their_registers()
    ensures { answers (script_of LOADED_MAJORS) ≡ answers_of LOADED_MAJORS }
{}

/// The first part of an image has its version, the greatest identity, `eidelivery`, `eithreshold`
/// and the select number; each is looked at, and may be spelled as any number.
pub const NUMBERS_OF_AN_IMAGE: [(&str, &str); 19] = [
    ("machine 1 1 127 8", "ok"),
    ("vm 1 0x8 0", "ok"),
    ("load 0 0 image 0 127 0 0 0", "range"),
    ("load 0 0 image 2 127 0 0 0", "range"),
    ("load 0 0 image 1 63 0 0 0", "range"),
    ("load 0 0 image 1 127 0 128 0", "range"),
    ("load 0 0 image 1 127 0 127 0x1000", "range"),
    ("load 0 0 image 1 4294967296 0 0 0", "bad"),
    ("load 0 0 image 1 127 0 0", "bad"),
    ("load 0 0 image 1 127 0 0 0 0", "bad"),
    ("load 0 0 picture 1 127 0 0 0", "bad"),
    ("load 0 0", "bad"),
    ("save 0 0", "bad"),
    ("save 0 0 0x0", "image 1 127 0 0 0x0000000000000000"),
    ("load 0 0 image 0x1 0x7f 0x1 0x5 0x70", "ok"),
    ("save 0 0 0", "image 1 127 1 5 0x0000000000000070"),
    ("arrive 0 0 0", "ok"),
    ("g 0 0 csrrw siselect 0x72", "0x0000000000000070"),
    ("g 0 0 csrr sireg", "0x0000000000000005"),
];

/// Proves that the model answers [`NUMBERS_OF_AN_IMAGE`] as it says.
pub fn the_numbers_of_an_image()
    ensures { answers (script_of NUMBERS_OF_AN_IMAGE) ≡ answers_of NUMBERS_OF_AN_IMAGE }
{}
