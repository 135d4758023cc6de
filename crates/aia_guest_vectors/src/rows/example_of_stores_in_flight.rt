//! The script of examples/ in which stores are in flight, for a reader.
//!
//! Made of suite/rows/guests/example_of_stores_in_flight.rows by suite/make: edit the rows.

ghost use Rattle.std.specs.Prelude.{◌≡◌};
ghost use Rattle.aia_model.specs.Script.{answers};
ghost use Rattle.aia_vectors.specs.Rows.{script_of, answers_of};

/// A store is in flight while its guest leaves, and a peer and a refetch come between.
pub const STORES_IN_FLIGHT_EXAMPLE: [(&str, &str); 102] = [
    (
        "# A device's store takes a while, and the IOMMU may read an entry of the MSI page table \
         again at any",
        "",
    ),
    (
        "# time. Stores are in flight here while a virtual hart leaves its guest file for memory, \
         a peer asks",
        "",
    ),
    (
        "# it for something, and the IOMMU reads the entry again before it is fenced. None of the \
         stores is",
        "",
    ),
    (
        "# lost. How many may be in flight, and that the fence waits until they have landed, are \
         this",
        "",
    ),
    ("# project's choice.", ""),
    ("#", ""),
    (
        "# A machine of one hart with two guest files, the identities 1 to 63 and one wired \
         source. The host",
        "",
    ),
    (
        "# is told of notices in the supervisor file of hart 0, so it enables the identity of its \
         first",
        "",
    ),
    ("# virtual hart there: 1.", ""),
    ("machine 1 2 63 1", "ok"),
    ("h 0 csrrw siselect 0xc0", "0x0000000000000000"),
    ("h 0 csrrw sireg 2", "0x0000000000000000"),
    (
        "# Two virtual harts run. The first one enables the identities 1 to 15.",
        "",
    ),
    ("vm 2 0x8 0", "ok"),
    ("arrive 0 0 0", "ok"),
    ("arrive 0 1 0", "ok"),
    ("g 0 0 csrrw siselect 0xc0", "0x0000000000000000"),
    ("g 0 0 csrrw sireg 0xfffe", "0x0000000000000000"),
    ("", ""),
    ("# ---- two stores are in flight", ""),
    (
        "# Where a store goes is settled as it is sent, by the entry in force: both of these go to \
         the guest",
        "",
    ),
    ("# file. They do nothing until they land.", ""),
    ("send 0 0x28000000 3", "ok"),
    ("send 0 0x28000000 4", "ok"),
    ("g 0 0 csrr stopei", "0x0000000000000000"),
    (
        "# They may land in any order, and are counted from the oldest, which is 0: so 4 lands \
         first.",
        "",
    ),
    ("land 0 1", "ok"),
    ("g 0 0 csrrw stopei 0", "0x0000000000040004"),
    ("", ""),
    ("# ---- the virtual hart leaves, while 3 is in flight", ""),
    ("begin leave 0 0", "ok"),
    (
        "# The first step takes eidelivery, the second writes word 1 of the entry, and the third \
         word 0: now",
        "",
    ),
    ("# the entry names memory.", ""),
    ("step 0 0", "moving"),
    ("step 0 0", "moving"),
    ("step 0 0", "moving"),
    (
        "# The IOMMU need not have read it, so this goes to the guest file still.",
        "",
    ),
    ("msi 0 0x28000000 5", "ok"),
    (
        "# A peer goes by the G stage, which leads to the guest file too.",
        "",
    ),
    ("g 0 1 ipi 0 6", "ok"),
    (
        "# Now the IOMMU reads the entry again. That is no fence: it lands nothing, and 3 goes to \
         the guest",
        "",
    ),
    (
        "# file still, where it was sent to. But what is sent from now on goes to memory.",
        "",
    ),
    ("refetch 0 0", "ok"),
    ("send 0 0x28000000 7", "ok"),
    ("", ""),
    ("# ---- the fence", ""),
    (
        "# The fourth step is the fence. First all stores of the VM that are in flight land, the \
         oldest",
        "",
    ),
    (
        "# first, each where it was sent to: 3 in the guest file, 7 in memory. None is in flight \
         after it.",
        "",
    ),
    ("step 0 0", "moving"),
    ("land 0 0", "range"),
    (
        "# Memory has no enable bit yet, so 7 sent no notice. The leave will look for it.",
        "",
    ),
    ("h 0 csrr stopei", "0x0000000000000000"),
    (
        "# From now on no store of a device reaches the guest file, so the hypervisor may take its \
         words:",
        "",
    ),
    (
        "# nothing is on its way there that could come too late.",
        "",
    ),
    ("send 0 0x28000000 8", "ok"),
    ("", ""),
    ("# ---- the rest of the leave", ""),
    (
        "# The fifth and the sixth step take the guest file from the peers. Four steps carry the \
         pending",
        "",
    ),
    (
        "# word and the enabled one, one looks at them, and the twelfth takes the threshold.",
        "",
    ),
    ("step 0 0", "moving"),
    ("step 0 0", "moving"),
    ("step 0 0", "moving"),
    ("step 0 0", "moving"),
    ("step 0 0", "moving"),
    ("step 0 0", "moving"),
    ("step 0 0", "moving"),
    ("step 0 0", "moving"),
    (
        "# The last step tells the host, since the look saw what was pending.",
        "",
    ),
    ("step 0 0", "done"),
    ("h 0 csrrw stopei 0", "0x0000000000010001"),
    ("", ""),
    ("# ---- what was sent lands in memory", ""),
    (
        "# 8 is in flight since the fence. It lands now, and as 8 is enabled it sends a notice of \
         its own.",
        "",
    ),
    ("h 0 csrr stopei", "0x0000000000000000"),
    ("land 0 0", "ok"),
    ("h 0 csrrw stopei 0", "0x0000000000010001"),
    ("", ""),
    ("# ---- what the guest sees", ""),
    (
        "# It comes back while one more store is in flight. The fence of the arrival lands it in \
         memory, from",
        "",
    ),
    ("# where all is carried into the guest file.", ""),
    ("send 0 0x28000000 9", "ok"),
    ("arrive 0 0 0", "ok"),
    ("land 0 0", "range"),
    ("g 0 0 csrrw stopei 0", "0x0000000000030003"),
    ("g 0 0 csrrw stopei 0", "0x0000000000050005"),
    ("g 0 0 csrrw stopei 0", "0x0000000000060006"),
    ("g 0 0 csrrw stopei 0", "0x0000000000070007"),
    ("g 0 0 csrrw stopei 0", "0x0000000000080008"),
    ("g 0 0 csrrw stopei 0", "0x0000000000090009"),
    ("g 0 0 csrrw stopei 0", "0x0000000000000000"),
    ("", ""),
    ("# ---- how many may be in flight", ""),
    (
        "# At most eight stores of one VM, of all its virtual harts together.",
        "",
    ),
    ("send 0 0x28000000 1", "ok"),
    ("send 0 0x28008000 1", "ok"),
    ("send 0 0x28000000 2", "ok"),
    ("send 0 0x28008000 2", "ok"),
    ("send 0 0x28000000 3", "ok"),
    ("send 0 0x28008000 3", "ok"),
    ("send 0 0x28000000 4", "ok"),
    ("send 0 0x28008000 4", "ok"),
    ("send 0 0x28000000 5", "full"),
];

/// Proves that the model answers [`STORES_IN_FLIGHT_EXAMPLE`] as it says.
pub fn the_example_of_stores_in_flight()
    ensures { answers (script_of STORES_IN_FLIGHT_EXAMPLE) ≡ answers_of STORES_IN_FLIGHT_EXAMPLE }
{}
