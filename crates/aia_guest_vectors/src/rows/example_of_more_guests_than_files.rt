//! The script of examples/ in which virtual harts run from memory, for a reader.
//!
//! Made of suite/rows/guests/example_of_more_guests_than_files.rows by suite/make: edit the rows.

ghost use Rattle.std.specs.Prelude.{◌≡◌};
ghost use Rattle.aia_model.specs.Script.{answers};
ghost use Rattle.aia_vectors.specs.Rows.{script_of, answers_of};

/// Three virtual harts share one guest file: one is resident, and the others run from memory.
pub const MORE_GUESTS_EXAMPLE: [(&str, &str); 104] = [
    (
        "# A hart has few guest files, and a hypervisor may have more virtual harts to run than \
         there are.",
        "",
    ),
    (
        "# One that gets no guest file may run from memory: its interrupts stay in its slot, each \
         of its",
        "",
    ),
    (
        "# accesses to its interrupt file traps, and the hypervisor answers for the file over the \
         slot. Three",
        "",
    ),
    (
        "# virtual harts share one guest file here, and none of them can tell by its interrupt \
         file which of",
        "",
    ),
    (
        "# them has it. That one may run from memory, and what the host is told as it ceases to, \
         are this",
        "",
    ),
    ("# project's choice.", ""),
    ("#", ""),
    (
        "# A machine of one hart with one guest file, the identities 1 to 63 and one wired source. \
         The host",
        "",
    ),
    (
        "# is told of notices in the supervisor file of hart 0, so it enables the identities of \
         its three",
        "",
    ),
    ("# virtual harts there: 1, 2 and 3.", ""),
    ("machine 1 1 63 1", "ok"),
    ("h 0 csrrw siselect 0xc0", "0x0000000000000000"),
    ("h 0 csrrw sireg 0xe", "0x0000000000000000"),
    (
        "# The first virtual hart gets the guest file, and there is none for the second one.",
        "",
    ),
    ("vm 3 0x18 0", "ok"),
    ("arrive 0 0 0", "ok"),
    ("arrive 0 1 0", "nofile"),
    ("# So the others run from memory.", ""),
    ("g 0 1 csrr stopei", "away"),
    ("enter 0 1", "ok"),
    ("enter 0 2", "ok"),
    (
        "# Each enables the identities 1 to 15, and is answered the same.",
        "",
    ),
    ("g 0 0 csrrw siselect 0xc0", "0x0000000000000000"),
    ("g 0 0 csrrw sireg 0xfffe", "0x0000000000000000"),
    ("g 0 1 csrrw siselect 0xc0", "0x0000000000000000"),
    ("g 0 1 csrrw sireg 0xfffe", "0x0000000000000000"),
    ("g 0 2 csrrw siselect 0xc0", "0x0000000000000000"),
    ("g 0 2 csrrw sireg 0xfffe", "0x0000000000000000"),
    ("", ""),
    ("# ---- a device asks each of them for something", ""),
    ("msi 0 0x28000000 5", "ok"),
    ("msi 0 0x28008000 6", "ok"),
    ("msi 0 0x28010000 7", "ok"),
    (
        "# The guest file signals its virtual hart by itself. Of the other two the host is told, \
         by a notice",
        "",
    ),
    (
        "# each: it is what tells the hypervisor to interrupt them.",
        "",
    ),
    ("h 0 csrrw stopei 0", "0x0000000000020002"),
    ("h 0 csrrw stopei 0", "0x0000000000030003"),
    ("h 0 csrrw stopei 0", "0x0000000000000000"),
    ("# Each claims what it was asked for, once.", ""),
    ("g 0 0 csrrw stopei 0", "0x0000000000050005"),
    ("g 0 1 csrrw stopei 0", "0x0000000000060006"),
    ("g 0 2 csrrw stopei 0", "0x0000000000070007"),
    ("g 0 2 csrrw stopei 0", "0x0000000000000000"),
    ("# Its major interrupts one has in a guest file alone.", ""),
    ("g 0 2 csrr stopi", "away"),
    ("", ""),
    ("# ---- they ask each other", ""),
    (
        "# From memory to memory, from memory to the guest file, and from there to memory.",
        "",
    ),
    ("g 0 1 ipi 2 8", "ok"),
    ("g 0 2 ipi 0 9", "ok"),
    ("g 0 0 ipi 1 10", "ok"),
    ("h 0 csrrw stopei 0", "0x0000000000020002"),
    ("h 0 csrrw stopei 0", "0x0000000000030003"),
    ("h 0 csrrw stopei 0", "0x0000000000000000"),
    ("g 0 0 csrrw stopei 0", "0x0000000000090009"),
    ("g 0 1 csrrw stopei 0", "0x00000000000a000a"),
    ("g 0 2 csrrw stopei 0", "0x0000000000080008"),
    ("", ""),
    ("# ---- the end of a turn", ""),
    (
        "# Virtual hart 2 has had its time. Nothing is pending at it, so it is parked without a \
         notice.",
        "",
    ),
    ("exit 0 2", "ok"),
    ("h 0 csrr stopei", "0x0000000000000000"),
    (
        "# Virtual hart 1 makes 11 pending at itself. That is no store, and sends no notice.",
        "",
    ),
    ("g 0 1 csrrw siselect 0x80", "0x00000000000000c0"),
    ("g 0 1 csrrs sireg 0x800", "0x0000000000000000"),
    ("h 0 csrr stopei", "0x0000000000000000"),
    (
        "# As its turn ends the host is told, so it is not left asleep with an interrupt.",
        "",
    ),
    ("exit 0 1", "ok"),
    ("h 0 csrrw stopei 0", "0x0000000000020002"),
    (
        "# While it is parked, the host is told of what a device asks of virtual hart 2, and gives \
         it a turn.",
        "",
    ),
    ("msi 0 0x28010000 3", "ok"),
    ("h 0 csrrw stopei 0", "0x0000000000030003"),
    ("enter 0 2", "ok"),
    ("g 0 2 csrrw stopei 0", "0x0000000000030003"),
    ("", ""),
    ("# ---- the guest file changes hands", ""),
    (
        "# Virtual hart 0 is asked for 4, and has to leave before it claims it: the last step of a \
         leave",
        "",
    ),
    (
        "# tells the host. Virtual hart 1 is asked for 12 while it is parked.",
        "",
    ),
    ("msi 0 0x28000000 4", "ok"),
    ("leave 0 0", "ok"),
    ("h 0 csrrw stopei 0", "0x0000000000010001"),
    ("msi 0 0x28008000 12", "ok"),
    ("h 0 csrrw stopei 0", "0x0000000000020002"),
    (
        "# Virtual hart 2 has to cease to run from memory before it could have the guest file. \
         Virtual hart 1",
        "",
    ),
    (
        "# is parked, so it gets it; virtual hart 0 runs on from memory.",
        "",
    ),
    ("arrive 0 2 0", "entered"),
    ("arrive 0 1 0", "ok"),
    ("enter 0 0", "ok"),
    (
        "# Each still has what it enabled, and claims what it was asked for, once.",
        "",
    ),
    ("g 0 0 csrr sireg", "0x000000000000fffe"),
    ("g 0 0 csrrw stopei 0", "0x0000000000040004"),
    ("g 0 0 csrrw stopei 0", "0x0000000000000000"),
    ("g 0 1 csrr sireg", "0x0000000000001800"),
    ("g 0 1 csrrw stopei 0", "0x00000000000b000b"),
    ("g 0 1 csrrw stopei 0", "0x00000000000c000c"),
    ("g 0 1 csrrw stopei 0", "0x0000000000000000"),
    (
        "# The device uses the same addresses as before. Now it is virtual hart 1 of which the \
         host need not",
        "",
    ),
    ("# be told.", ""),
    ("msi 0 0x28000000 13", "ok"),
    ("msi 0 0x28008000 14", "ok"),
    ("h 0 csrrw stopei 0", "0x0000000000010001"),
    ("h 0 csrrw stopei 0", "0x0000000000000000"),
    ("g 0 0 csrrw stopei 0", "0x00000000000d000d"),
    ("g 0 1 csrrw stopei 0", "0x00000000000e000e"),
];

/// Proves that the model answers [`MORE_GUESTS_EXAMPLE`] as it says.
pub fn the_example_of_more_guests_than_files()
    ensures { answers (script_of MORE_GUESTS_EXAMPLE) ≡ answers_of MORE_GUESTS_EXAMPLE }
{}
