//! Stores that are in flight for a while, and entries that the IOMMU reads again before a fence.
//!
//! Made of suite/rows/guests/stores_in_flight.rows by suite/make: edit the rows.

ghost use Rattle.std.specs.Prelude.{◌≡◌};
ghost use Rattle.aia_model.specs.Script.{answers};
ghost use Rattle.aia_vectors.specs.Rows.{script_of, answers_of};

/// A store that is sent is nothing to its virtual hart until it lands. Then the identity is
/// pending, and none is in flight.
pub const STORE_IN_FLIGHT_IS_PENDING_ONCE_IT_LANDS: [(&str, &str); 10] = [
    ("machine 1 1 63 8", "ok"),
    ("vm 1 0x8 0", "ok"),
    ("arrive 0 0 0", "ok"),
    ("g 0 0 csrrw siselect 0xc0", "0x0000000000000000"),
    ("g 0 0 csrrw sireg 0xffffffffffffffff", "0x0000000000000000"),
    ("send 0 0x28000000 5", "ok"),
    ("g 0 0 csrr stopei", "0x0000000000000000"),
    ("land 0 0", "ok"),
    ("g 0 0 csrr stopei", "0x0000000000050005"),
    ("land 0 0", "range"),
];

/// Proves that the model answers [`STORE_IN_FLIGHT_IS_PENDING_ONCE_IT_LANDS`] as it says.
pub fn a_store_in_flight_is_pending_once_it_lands()
    ensures { answers (script_of STORE_IN_FLIGHT_IS_PENDING_ONCE_IT_LANDS)
        ≡ answers_of STORE_IN_FLIGHT_IS_PENDING_ONCE_IT_LANDS }
{}

/// A store is in flight while its virtual hart leaves, and the IOMMU reads the entry again once it
/// is written: the next store goes to memory, the one in flight to the guest file, and none is
/// lost.
pub const LEAVE_WITH_A_STORE_IN_FLIGHT: [(&str, &str); 26] = [
    ("machine 1 1 63 8", "ok"),
    ("vm 1 0x8 0", "ok"),
    ("arrive 0 0 0", "ok"),
    ("g 0 0 csrrw siselect 0xc0", "0x0000000000000000"),
    ("g 0 0 csrrw sireg 0xffffffffffffffff", "0x0000000000000000"),
    ("send 0 0x28000000 5", "ok"),
    ("begin leave 0 0", "ok"),
    ("step 0 0", "moving"),
    ("step 0 0", "moving"),
    ("step 0 0", "moving"),
    ("refetch 0 0", "ok"),
    ("msi 0 0x28000000 6", "ok"),
    ("step 0 0", "moving"),
    ("step 0 0", "moving"),
    ("step 0 0", "moving"),
    ("step 0 0", "moving"),
    ("step 0 0", "moving"),
    ("step 0 0", "moving"),
    ("step 0 0", "moving"),
    ("step 0 0", "moving"),
    ("step 0 0", "moving"),
    ("step 0 0", "done"),
    ("arrive 0 0 0", "ok"),
    ("g 0 0 csrrw stopei 0", "0x0000000000050005"),
    ("g 0 0 csrrw stopei 0", "0x0000000000060006"),
    ("g 0 0 csrrw stopei 0", "0x0000000000000000"),
];

/// Proves that the model answers [`LEAVE_WITH_A_STORE_IN_FLIGHT`] as it says.
pub fn a_leave_with_a_store_in_flight()
    ensures { answers (script_of LEAVE_WITH_A_STORE_IN_FLIGHT)
        ≡ answers_of LEAVE_WITH_A_STORE_IN_FLIGHT }
{}

/// No more than eight stores of a VM are in flight. The fence of a move lands them all.
pub const EIGHT_STORES_IN_FLIGHT: [(&str, &str); 16] = [
    ("machine 1 1 63 8", "ok"),
    ("vm 1 0x8 0", "ok"),
    ("arrive 0 0 0", "ok"),
    ("g 0 0 csrrw siselect 0xc0", "0x0000000000000000"),
    ("g 0 0 csrrw sireg 0xffffffffffffffff", "0x0000000000000000"),
    ("send 0 0x28000000 7", "ok"),
    ("send 0 0x28000000 7", "ok"),
    ("send 0 0x28000000 7", "ok"),
    ("send 0 0x28000000 7", "ok"),
    ("send 0 0x28000000 7", "ok"),
    ("send 0 0x28000000 7", "ok"),
    ("send 0 0x28000000 7", "ok"),
    ("send 0 0x28000000 7", "ok"),
    ("send 0 0x28000000 7", "full"),
    ("leave 0 0", "ok"),
    ("land 0 0", "range"),
];

/// Proves that the model answers [`EIGHT_STORES_IN_FLIGHT`] as it says.
pub fn eight_stores_in_flight()
    ensures { answers (script_of EIGHT_STORES_IN_FLIGHT) ≡ answers_of EIGHT_STORES_IN_FLIGHT }
{}

/// Once its entry is written, a refetch puts it in force before the fence of the arrival: the next
/// store of a device goes to the guest file, and sends no notice.
pub const REFETCH_BEFORE_THE_FENCE_OF_AN_ARRIVAL: [(&str, &str); 15] = [
    ("machine 1 2 63 8", "ok"),
    ("vm 2 0x8 0", "ok"),
    ("arrive 0 0 0", "ok"),
    ("arrive 0 1 0", "ok"),
    ("g 0 0 csrrw siselect 0xc0", "0x0000000000000000"),
    ("g 0 0 csrrw sireg 0xfffffffffffffffe", "0x0000000000000000"),
    ("leave 0 0", "ok"),
    ("h 0 csrrw siselect 0x80", "0x0000000000000000"),
    ("begin arrive 0 0 0", "ok"),
    ("step 0 0", "moving"),
    ("msi 0 0x28000000 5", "ok"),
    ("h 0 csrrw sireg 0", "0x0000000000000002"),
    ("refetch 0 0", "ok"),
    ("msi 0 0x28000000 6", "ok"),
    ("h 0 csrrw sireg 0", "0x0000000000000000"),
];

/// Proves that the model answers [`REFETCH_BEFORE_THE_FENCE_OF_AN_ARRIVAL`] as it says.
pub fn a_refetch_before_the_fence_of_an_arrival()
    ensures { answers (script_of REFETCH_BEFORE_THE_FENCE_OF_AN_ARRIVAL)
        ≡ answers_of REFETCH_BEFORE_THE_FENCE_OF_AN_ARRIVAL }
{}

/// A store was sent to memory, and then the entry in force came to name the guest file. A refetch
/// lands nothing; the store lands in memory, and the host is told.
pub const STORE_LANDS_WHERE_IT_WAS_SENT: [(&str, &str); 15] = [
    ("machine 1 2 63 8", "ok"),
    ("vm 2 0x8 0", "ok"),
    ("arrive 0 0 0", "ok"),
    ("arrive 0 1 0", "ok"),
    ("g 0 0 csrrw siselect 0xc0", "0x0000000000000000"),
    ("g 0 0 csrrw sireg 0xfffffffffffffffe", "0x0000000000000000"),
    ("leave 0 0", "ok"),
    ("h 0 csrrw siselect 0x80", "0x0000000000000000"),
    ("send 0 0x28000000 5", "ok"),
    ("begin arrive 0 0 0", "ok"),
    ("step 0 0", "moving"),
    ("refetch 0 0", "ok"),
    ("h 0 csrr sireg", "0x0000000000000000"),
    ("land 0 0", "ok"),
    ("h 0 csrrw sireg 0", "0x0000000000000002"),
];

/// Proves that the model answers [`STORE_LANDS_WHERE_IT_WAS_SENT`] as it says.
pub fn a_store_lands_where_it_was_sent()
    ensures { answers (script_of STORE_LANDS_WHERE_IT_WAS_SENT)
        ≡ answers_of STORE_LANDS_WHERE_IT_WAS_SENT }
{}

/// The fence of one virtual hart lands what is in flight for another one of its VM.
pub const FENCE_LANDS_ALL_STORES_OF_ITS_VM: [(&str, &str); 16] = [
    ("machine 1 2 63 8", "ok"),
    ("vm 2 0x8 0", "ok"),
    ("arrive 0 0 0", "ok"),
    ("arrive 0 1 0", "ok"),
    ("g 0 0 csrrw siselect 0xc0", "0x0000000000000000"),
    ("g 0 0 csrrw sireg 0xfffffffffffffffe", "0x0000000000000000"),
    ("leave 0 0", "ok"),
    ("h 0 csrrw siselect 0x80", "0x0000000000000000"),
    ("g 0 1 csrrw siselect 0xc0", "0x0000000000000000"),
    ("g 0 1 csrrw sireg 2", "0x0000000000000000"),
    ("send 0 0x28008000 1", "ok"),
    ("begin arrive 0 0 0", "ok"),
    ("step 0 0", "moving"),
    ("g 0 1 csrr stopei", "0x0000000000000000"),
    ("step 0 0", "moving"),
    ("g 0 1 csrr stopei", "0x0000000000010001"),
];

/// Proves that the model answers [`FENCE_LANDS_ALL_STORES_OF_ITS_VM`] as it says.
pub fn a_fence_lands_all_stores_of_its_vm()
    ensures { answers (script_of FENCE_LANDS_ALL_STORES_OF_ITS_VM)
        ≡ answers_of FENCE_LANDS_ALL_STORES_OF_ITS_VM }
{}

/// The fence of an arrival lands a store in memory, where it was sent to, so the host is told; the
/// next store goes to the guest file.
pub const FENCE_LANDS_BEFORE_ITS_ENTRY_IS_IN_FORCE: [(&str, &str); 29] = [
    ("machine 1 2 63 8", "ok"),
    ("vm 2 0x8 0", "ok"),
    ("arrive 0 0 0", "ok"),
    ("arrive 0 1 0", "ok"),
    ("g 0 0 csrrw siselect 0xc0", "0x0000000000000000"),
    ("g 0 0 csrrw sireg 0xfffffffffffffffe", "0x0000000000000000"),
    ("leave 0 0", "ok"),
    ("h 0 csrrw siselect 0x80", "0x0000000000000000"),
    ("send 0 0x28000000 5", "ok"),
    ("begin arrive 0 0 0", "ok"),
    ("step 0 0", "moving"),
    ("h 0 csrr sireg", "0x0000000000000000"),
    ("step 0 0", "moving"),
    ("h 0 csrrw sireg 0", "0x0000000000000002"),
    ("land 0 0", "range"),
    ("send 0 0x28000000 6", "ok"),
    ("land 0 0", "ok"),
    ("h 0 csrrw sireg 0", "0x0000000000000000"),
    ("step 0 0", "moving"),
    ("step 0 0", "moving"),
    ("step 0 0", "moving"),
    ("step 0 0", "moving"),
    ("step 0 0", "moving"),
    ("step 0 0", "moving"),
    ("step 0 0", "moving"),
    ("step 0 0", "done"),
    ("g 0 0 csrrw stopei 0", "0x0000000000050005"),
    ("g 0 0 csrrw stopei 0", "0x0000000000060006"),
    ("g 0 0 csrrw stopei 0", "0x0000000000000000"),
];

/// Proves that the model answers [`FENCE_LANDS_BEFORE_ITS_ENTRY_IS_IN_FORCE`] as it says.
pub fn a_fence_lands_before_its_entry_is_in_force()
    ensures { answers (script_of FENCE_LANDS_BEFORE_ITS_ENTRY_IS_IN_FORCE)
        ≡ answers_of FENCE_LANDS_BEFORE_ITS_ENTRY_IS_IN_FORCE }
{}

/// A refetch puts in force what the entry's words say then. They name the slot of memory before the
/// first step of an arrival, which writes word 0; and each virtual hart has an entry of its own.
pub const REFETCH_BEFORE_THE_ENTRY_IS_WRITTEN: [(&str, &str); 27] = [
    ("machine 1 2 63 8", "ok"),
    ("vm 2 0x8 0", "ok"),
    ("arrive 0 0 0", "ok"),
    ("arrive 0 1 0", "ok"),
    ("g 0 0 csrrw siselect 0xc0", "0x0000000000000000"),
    ("g 0 0 csrrw sireg 0xfffffffffffffffe", "0x0000000000000000"),
    ("leave 0 0", "ok"),
    ("h 0 csrrw siselect 0x80", "0x0000000000000000"),
    ("refetch 0 0", "ok"),
    ("msi 0 0x28000000 5", "ok"),
    ("h 0 csrrw sireg 0", "0x0000000000000002"),
    ("begin arrive 0 0 0", "ok"),
    ("refetch 0 0", "ok"),
    ("msi 0 0x28000000 6", "ok"),
    ("h 0 csrrw sireg 0", "0x0000000000000002"),
    ("step 0 0", "moving"),
    ("refetch 0 1", "ok"),
    ("msi 0 0x28000000 7", "ok"),
    ("h 0 csrrw sireg 0", "0x0000000000000002"),
    ("refetch 0 0", "ok"),
    ("msi 0 0x28000000 8", "ok"),
    ("h 0 csrrw sireg 0", "0x0000000000000000"),
    ("refetch 0 0", "ok"),
    ("step 0 0", "moving"),
    ("refetch 0 0", "ok"),
    ("msi 0 0x28000000 9", "ok"),
    ("h 0 csrrw sireg 0", "0x0000000000000000"),
];

/// Proves that the model answers [`REFETCH_BEFORE_THE_ENTRY_IS_WRITTEN`] as it says.
pub fn a_refetch_before_the_entry_is_written()
    ensures { answers (script_of REFETCH_BEFORE_THE_ENTRY_IS_WRITTEN)
        ≡ answers_of REFETCH_BEFORE_THE_ENTRY_IS_WRITTEN }
{}

/// A store was sent to a guest file that its virtual hart is leaving, and lands there though the
/// entry in force names memory by then: the move carries its pending bit, and the guest claims it.
pub const STORE_LANDS_IN_THE_OLD_FILE_BEFORE_THE_FENCE: [(&str, &str); 28] = [
    ("machine 1 1 63 8", "ok"),
    ("vm 1 0x8 0", "ok"),
    ("arrive 0 0 0", "ok"),
    ("g 0 0 csrrw siselect 0xc0", "0x0000000000000000"),
    ("g 0 0 csrrw sireg 0xffffffffffffffff", "0x0000000000000000"),
    ("send 0 0x28000000 9", "ok"),
    ("begin leave 0 0", "ok"),
    ("step 0 0", "moving"),
    ("step 0 0", "moving"),
    ("step 0 0", "moving"),
    ("refetch 0 0", "ok"),
    ("land 0 0", "ok"),
    ("land 0 0", "range"),
    ("msi 0 0x28000000 5", "ok"),
    ("step 0 0", "moving"),
    ("step 0 0", "moving"),
    ("step 0 0", "moving"),
    ("step 0 0", "moving"),
    ("step 0 0", "moving"),
    ("step 0 0", "moving"),
    ("step 0 0", "moving"),
    ("step 0 0", "moving"),
    ("step 0 0", "moving"),
    ("step 0 0", "done"),
    ("arrive 0 0 0", "ok"),
    ("g 0 0 csrrw stopei 0", "0x0000000000050005"),
    ("g 0 0 csrrw stopei 0", "0x0000000000090009"),
    ("g 0 0 csrrw stopei 0", "0x0000000000000000"),
];

/// Proves that the model answers [`STORE_LANDS_IN_THE_OLD_FILE_BEFORE_THE_FENCE`] as it says.
pub fn a_store_lands_in_the_old_file_before_the_fence()
    ensures { answers (script_of STORE_LANDS_IN_THE_OLD_FILE_BEFORE_THE_FENCE)
        ≡ answers_of STORE_LANDS_IN_THE_OLD_FILE_BEFORE_THE_FENCE }
{}

/// Any store in flight may land next: they are counted from 0 in the order in which they were sent.
/// At offset 4 the identity is taken big-endian, and one that names no identity does nothing.
pub const STORES_LAND_IN_ANY_ORDER: [(&str, &str); 20] = [
    ("machine 1 1 63 8", "ok"),
    ("vm 1 0x8 0", "ok"),
    ("arrive 0 0 0", "ok"),
    ("g 0 0 csrrw siselect 0xc0", "0x0000000000000000"),
    ("g 0 0 csrrw sireg 0xffffffffffffffff", "0x0000000000000000"),
    ("send 0 0x28000000 7", "ok"),
    ("send 0 0x28000004 0x06000000", "ok"),
    ("send 0 0x28000000 64", "ok"),
    ("send 0 0x28000000 5", "ok"),
    ("land 0 4", "range"),
    ("land 0 1", "ok"),
    ("g 0 0 csrrw stopei 0", "0x0000000000060006"),
    ("land 0 3", "range"),
    ("land 0 2", "ok"),
    ("g 0 0 csrrw stopei 0", "0x0000000000050005"),
    ("land 0 1", "ok"),
    ("g 0 0 csrr stopei", "0x0000000000000000"),
    ("land 0 0", "ok"),
    ("g 0 0 csrrw stopei 0", "0x0000000000070007"),
    ("land 0 0", "range"),
];

/// Proves that the model answers [`STORES_LAND_IN_ANY_ORDER`] as it says.
pub fn stores_land_in_any_order()
    ensures { answers (script_of STORES_LAND_IN_ANY_ORDER) ≡ answers_of STORES_LAND_IN_ANY_ORDER }
{}

/// The ninth store of one VM is refused, and is not kept; another VM has room of its own. Also a
/// store that names no identity takes room. `full` is looked at before the address.
pub const FULL_IS_OF_ONE_VM: [(&str, &str); 35] = [
    ("machine 1 0 63 1", "ok"),
    ("vm 1 0x8 0", "ok"),
    ("vm 1 0x8 0", "ok"),
    ("send 0 0x28000000 5", "ok"),
    ("send 0 0x28000000 5", "ok"),
    ("send 0 0x28000000 5", "ok"),
    ("send 0 0x28000000 5", "ok"),
    ("send 0 0x28000000 5", "ok"),
    ("send 0 0x28000000 5", "ok"),
    ("send 0 0x28000000 5", "ok"),
    ("send 0 0x28000008 5", "ok"),
    ("send 0 0x28000000 5", "full"),
    ("send 0 0x28000002 5", "full"),
    ("send 0 0x28001000 5", "full"),
    ("send 0 0x28008000 5", "full"),
    ("send 1 0x28000000 5", "ok"),
    ("send 1 0x28000000 5", "ok"),
    ("send 1 0x28000000 5", "ok"),
    ("send 1 0x28000000 5", "ok"),
    ("send 1 0x28000000 5", "ok"),
    ("send 1 0x28000000 5", "ok"),
    ("send 1 0x28000000 5", "ok"),
    ("send 1 0x28000000 5", "ok"),
    ("send 1 0x28000000 5", "full"),
    ("msi 0 0x28000000 5", "ok"),
    ("land 0 8", "range"),
    ("land 0 7", "ok"),
    ("land 0 7", "range"),
    ("send 0 0x28000002 5", "fault"),
    ("send 0 0x28001000 5", "other"),
    ("send 0 0x28008000 5", "notvalid"),
    ("land 0 7", "range"),
    ("send 0 0x28000000 5", "ok"),
    ("send 0 0x28000000 5", "full"),
    ("send 1 0x28000000 5", "full"),
];

/// Proves that the model answers [`FULL_IS_OF_ONE_VM`] as it says.
pub fn full_is_of_one_vm()
    ensures { answers (script_of FULL_IS_OF_ONE_VM) ≡ answers_of FULL_IS_OF_ONE_VM }
{}

/// The fence of a move lands the stores of its own VM. Those of another VM stay in flight.
pub const FENCE_LEAVES_STORES_OF_OTHER_VMS: [(&str, &str); 18] = [
    ("machine 1 2 63 8", "ok"),
    ("vm 1 0x8 0", "ok"),
    ("vm 1 0x8 0", "ok"),
    ("arrive 0 0 0", "ok"),
    ("arrive 1 0 0", "ok"),
    ("g 1 0 csrrw siselect 0xc0", "0x0000000000000000"),
    ("g 1 0 csrrw sireg 0x60", "0x0000000000000000"),
    ("send 1 0x28000000 5", "ok"),
    ("send 0 0x28000000 6", "ok"),
    ("send 1 0x28000000 6", "ok"),
    ("leave 0 0", "ok"),
    ("land 0 0", "range"),
    ("g 1 0 csrr stopei", "0x0000000000000000"),
    ("land 1 1", "ok"),
    ("g 1 0 csrrw stopei 0", "0x0000000000060006"),
    ("land 1 0", "ok"),
    ("g 1 0 csrrw stopei 0", "0x0000000000050005"),
    ("land 1 0", "range"),
];

/// Proves that the model answers [`FENCE_LEAVES_STORES_OF_OTHER_VMS`] as it says.
pub fn a_fence_leaves_stores_of_other_vms()
    ensures { answers (script_of FENCE_LEAVES_STORES_OF_OTHER_VMS)
        ≡ answers_of FENCE_LEAVES_STORES_OF_OTHER_VMS }
{}

/// A store that lands in memory sends a notice where its identity is enabled there as it lands: it
/// sends none before, and none where the identity is not enabled.
pub const LANDING_TELLS_THE_HOST: [(&str, &str); 21] = [
    ("machine 1 1 63 8", "ok"),
    ("vm 1 0x8 0", "ok"),
    ("arrive 0 0 0", "ok"),
    ("g 0 0 csrrw siselect 0xc0", "0x0000000000000000"),
    ("g 0 0 csrrw sireg 0x20", "0x0000000000000000"),
    ("leave 0 0", "ok"),
    ("h 0 csrrw siselect 0x80", "0x0000000000000000"),
    ("send 0 0x28000000 5", "ok"),
    ("send 0 0x28000000 6", "ok"),
    ("send 0 0x28000000 5", "ok"),
    ("h 0 csrr sireg", "0x0000000000000000"),
    ("land 0 1", "ok"),
    ("h 0 csrr sireg", "0x0000000000000000"),
    ("land 0 0", "ok"),
    ("h 0 csrrw sireg 0", "0x0000000000000002"),
    ("land 0 0", "ok"),
    ("h 0 csrrw sireg 0", "0x0000000000000002"),
    ("arrive 0 0 0", "ok"),
    ("g 0 0 csrrw stopei 0", "0x0000000000050005"),
    ("g 0 0 csrrw stopei 0", "0x0000000000000000"),
    ("h 0 csrr sireg", "0x0000000000000000"),
];

/// Proves that the model answers [`LANDING_TELLS_THE_HOST`] as it says.
pub fn a_landing_tells_the_host()
    ensures { answers (script_of LANDING_TELLS_THE_HOST) ≡ answers_of LANDING_TELLS_THE_HOST }
{}

/// A whole arrival lands what was in flight to memory, so the host is told; then the store is
/// carried into the guest file with the rest. One that is sent afterwards lands in the guest file.
pub const ARRIVAL_LANDS_STORES_IN_MEMORY: [(&str, &str); 16] = [
    ("machine 1 1 63 8", "ok"),
    ("vm 1 0x8 0", "ok"),
    ("arrive 0 0 0", "ok"),
    ("g 0 0 csrrw siselect 0xc0", "0x0000000000000000"),
    ("g 0 0 csrrw sireg 0x20", "0x0000000000000000"),
    ("leave 0 0", "ok"),
    ("h 0 csrrw siselect 0x80", "0x0000000000000000"),
    ("send 0 0x28000000 5", "ok"),
    ("arrive 0 0 0", "ok"),
    ("h 0 csrrw sireg 0", "0x0000000000000002"),
    ("g 0 0 csrrw stopei 0", "0x0000000000050005"),
    ("send 0 0x28000000 5", "ok"),
    ("g 0 0 csrrw stopei 0", "0x0000000000000000"),
    ("land 0 0", "ok"),
    ("h 0 csrr sireg", "0x0000000000000000"),
    ("g 0 0 csrrw stopei 0", "0x0000000000050005"),
];

/// Proves that the model answers [`ARRIVAL_LANDS_STORES_IN_MEMORY`] as it says.
pub fn an_arrival_lands_stores_in_memory()
    ensures { answers (script_of ARRIVAL_LANDS_STORES_IN_MEMORY)
        ≡ answers_of ARRIVAL_LANDS_STORES_IN_MEMORY }
{}

/// A refetch leads a store to memory before the fence of a leave. It lands at the fence, when
/// memory has no enable bit yet, so it sends no notice; but the leave looks for it, and tells the
/// host at its end.
pub const LEAVE_SEES_WHAT_LANDED_BEFORE_ITS_FENCE: [(&str, &str); 25] = [
    ("machine 1 1 63 8", "ok"),
    ("vm 1 0x8 0", "ok"),
    ("h 0 csrrw siselect 0x80", "0x0000000000000000"),
    ("arrive 0 0 0", "ok"),
    ("g 0 0 csrrw siselect 0xc0", "0x0000000000000000"),
    ("g 0 0 csrrw sireg 0x20", "0x0000000000000000"),
    ("begin leave 0 0", "ok"),
    ("step 0 0", "moving"),
    ("step 0 0", "moving"),
    ("step 0 0", "moving"),
    ("refetch 0 0", "ok"),
    ("send 0 0x28000000 5", "ok"),
    ("step 0 0", "moving"),
    ("land 0 0", "range"),
    ("step 0 0", "moving"),
    ("step 0 0", "moving"),
    ("step 0 0", "moving"),
    ("step 0 0", "moving"),
    ("step 0 0", "moving"),
    ("step 0 0", "moving"),
    ("step 0 0", "moving"),
    ("step 0 0", "moving"),
    ("h 0 csrr sireg", "0x0000000000000000"),
    ("step 0 0", "done"),
    ("h 0 csrrw sireg 0", "0x0000000000000002"),
];

/// Proves that the model answers [`LEAVE_SEES_WHAT_LANDED_BEFORE_ITS_FENCE`] as it says.
pub fn a_leave_sees_what_landed_before_its_fence()
    ensures { answers (script_of LEAVE_SEES_WHAT_LANDED_BEFORE_ITS_FENCE)
        ≡ answers_of LEAVE_SEES_WHAT_LANDED_BEFORE_ITS_FENCE }
{}

/// In a shift one store lands in the old guest file before the fence, one at it, and one that was
/// sent after a refetch in the new one: the guest claims each once.
pub const SHIFT_WITH_STORES_IN_FLIGHT: [(&str, &str); 34] = [
    ("machine 1 2 63 8", "ok"),
    ("vm 1 0x8 0", "ok"),
    ("arrive 0 0 0", "ok"),
    ("g 0 0 csrrw siselect 0xc0", "0x0000000000000000"),
    ("g 0 0 csrrw sireg 0xfffffffffffffffe", "0x0000000000000000"),
    ("send 0 0x28000000 5", "ok"),
    ("send 0 0x28000000 6", "ok"),
    ("begin shift 0 0 0", "ok"),
    ("step 0 0", "moving"),
    ("step 0 0", "moving"),
    ("land 0 1", "ok"),
    ("refetch 0 0", "ok"),
    ("send 0 0x28000000 7", "ok"),
    ("land 0 1", "ok"),
    ("send 0 0x28000000 8", "ok"),
    ("step 0 0", "moving"),
    ("land 0 0", "range"),
    ("send 0 0x28000000 9", "ok"),
    ("step 0 0", "moving"),
    ("step 0 0", "moving"),
    ("step 0 0", "moving"),
    ("step 0 0", "moving"),
    ("step 0 0", "moving"),
    ("step 0 0", "moving"),
    ("step 0 0", "moving"),
    ("step 0 0", "moving"),
    ("step 0 0", "done"),
    ("g 0 0 csrrw stopei 0", "0x0000000000050005"),
    ("g 0 0 csrrw stopei 0", "0x0000000000060006"),
    ("g 0 0 csrrw stopei 0", "0x0000000000070007"),
    ("g 0 0 csrrw stopei 0", "0x0000000000080008"),
    ("g 0 0 csrrw stopei 0", "0x0000000000000000"),
    ("land 0 0", "ok"),
    ("g 0 0 csrrw stopei 0", "0x0000000000090009"),
];

/// Proves that the model answers [`SHIFT_WITH_STORES_IN_FLIGHT`] as it says.
pub fn a_shift_with_stores_in_flight()
    ensures { answers (script_of SHIFT_WITH_STORES_IN_FLIGHT)
        ≡ answers_of SHIFT_WITH_STORES_IN_FLIGHT }
{}

/// Stores and entries of VMs and virtual harts that aren't there, stores that aren't in flight, and
/// words that spell none of the three lines.
pub const LINES_OF_STORES_IN_FLIGHT_ARE_REFUSED: [(&str, &str); 33] = [
    ("send 0 0x28000000 5", "nomachine"),
    ("land 0 0", "nomachine"),
    ("refetch 0 0", "nomachine"),
    ("machine 1 1 63 8", "ok"),
    ("send 0 0x28000000 5", "range"),
    ("land 0 0", "range"),
    ("refetch 0 0", "range"),
    ("vm 1 0x8 0", "ok"),
    ("land 0 0", "range"),
    ("land 1 0", "range"),
    ("refetch 0 0", "ok"),
    ("refetch 0 1", "range"),
    ("refetch 1 0", "range"),
    ("refetch 4294967296 0", "range"),
    ("refetch 0 4294967296", "range"),
    ("send 1 0x28000002 5", "range"),
    ("send 4294967296 0x28000000 5", "range"),
    ("send 0 0x28000000", "bad"),
    ("send 0 0x28000000 5 5", "bad"),
    ("send 0 0x28000000 4294967296", "bad"),
    ("send  0 0x28000000 5", "bad"),
    ("Send 0 0x28000000 5", "bad"),
    ("send 0 0x28000000 4294967295", "ok"),
    ("land 0", "bad"),
    ("land 0 0 0", "bad"),
    ("land 4294967296 0", "range"),
    ("land 0 1", "range"),
    ("land 0 4294967296", "range"),
    ("refetch 0", "bad"),
    ("refetch 0 0 0", "bad"),
    ("refetch  0 0", "bad"),
    ("land 0x0 0x0", "ok"),
    ("land 0 0", "range"),
];

/// Proves that the model answers [`LINES_OF_STORES_IN_FLIGHT_ARE_REFUSED`] as it says.
pub fn lines_of_stores_in_flight_are_refused()
    ensures { answers (script_of LINES_OF_STORES_IN_FLIGHT_ARE_REFUSED)
        ≡ answers_of LINES_OF_STORES_IN_FLIGHT_ARE_REFUSED }
{}
