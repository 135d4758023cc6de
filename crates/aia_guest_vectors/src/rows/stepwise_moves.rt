//! Moves step by step, with other lines between the steps.
//!
//! Made of suite/rows/guests/stepwise_moves.rows by suite/make: edit the rows.

ghost use Rattle.std.specs.Prelude.{◌≡◌};
ghost use Rattle.aia_model.specs.Script.{answers};
ghost use Rattle.aia_vectors.specs.Rows.{script_of, answers_of};

/// An identity is asked for again while the word that has it is carried, in a leave: after the next
/// arrival it is pending once.
pub const REQUEST_AGAIN_WHILE_IT_IS_CARRIED: [(&str, &str); 24] = [
    ("machine 1 1 63 8", "ok"),
    ("vm 1 0x8 0", "ok"),
    ("arrive 0 0 0", "ok"),
    ("g 0 0 csrrw siselect 0xc0", "0x0000000000000000"),
    ("g 0 0 csrrw sireg 0xffffffffffffffff", "0x0000000000000000"),
    ("msi 0 0x28000000 5", "ok"),
    ("begin leave 0 0", "ok"),
    ("step 0 0", "moving"),
    ("step 0 0", "moving"),
    ("step 0 0", "moving"),
    ("step 0 0", "moving"),
    ("step 0 0", "moving"),
    ("step 0 0", "moving"),
    ("step 0 0", "moving"),
    ("msi 0 0x28000000 5", "ok"),
    ("step 0 0", "moving"),
    ("step 0 0", "moving"),
    ("step 0 0", "moving"),
    ("step 0 0", "moving"),
    ("step 0 0", "moving"),
    ("step 0 0", "done"),
    ("arrive 0 0 0", "ok"),
    ("g 0 0 csrrw stopei 0", "0x0000000000050005"),
    ("g 0 0 csrrw stopei 0", "0x0000000000000000"),
];

/// Proves that the model answers [`REQUEST_AGAIN_WHILE_IT_IS_CARRIED`] as it says.
pub fn a_request_again_while_it_is_carried()
    ensures { answers (script_of REQUEST_AGAIN_WHILE_IT_IS_CARRIED)
        ≡ answers_of REQUEST_AGAIN_WHILE_IT_IS_CARRIED }
{}

/// A device asks before each step of an arrival, for another identity each time; none is lost.
pub const STORES_BEFORE_EVERY_STEP_OF_AN_ARRIVAL: [(&str, &str); 38] = [
    ("machine 1 1 63 8", "ok"),
    ("vm 1 0x8 0", "ok"),
    ("arrive 0 0 0", "ok"),
    ("g 0 0 csrrw siselect 0xc0", "0x0000000000000000"),
    ("g 0 0 csrrw sireg 0xffffffffffffffff", "0x0000000000000000"),
    ("leave 0 0", "ok"),
    ("begin arrive 0 0 0", "ok"),
    ("msi 0 0x28000000 10", "ok"),
    ("step 0 0", "moving"),
    ("msi 0 0x28000000 9", "ok"),
    ("step 0 0", "moving"),
    ("msi 0 0x28000000 8", "ok"),
    ("step 0 0", "moving"),
    ("msi 0 0x28000000 7", "ok"),
    ("step 0 0", "moving"),
    ("msi 0 0x28000000 6", "ok"),
    ("step 0 0", "moving"),
    ("msi 0 0x28000000 5", "ok"),
    ("step 0 0", "moving"),
    ("msi 0 0x28000000 4", "ok"),
    ("step 0 0", "moving"),
    ("msi 0 0x28000000 3", "ok"),
    ("step 0 0", "moving"),
    ("msi 0 0x28000000 2", "ok"),
    ("step 0 0", "moving"),
    ("msi 0 0x28000000 1", "ok"),
    ("step 0 0", "done"),
    ("g 0 0 csrrw stopei 0", "0x0000000000010001"),
    ("g 0 0 csrrw stopei 0", "0x0000000000020002"),
    ("g 0 0 csrrw stopei 0", "0x0000000000030003"),
    ("g 0 0 csrrw stopei 0", "0x0000000000040004"),
    ("g 0 0 csrrw stopei 0", "0x0000000000050005"),
    ("g 0 0 csrrw stopei 0", "0x0000000000060006"),
    ("g 0 0 csrrw stopei 0", "0x0000000000070007"),
    ("g 0 0 csrrw stopei 0", "0x0000000000080008"),
    ("g 0 0 csrrw stopei 0", "0x0000000000090009"),
    ("g 0 0 csrrw stopei 0", "0x00000000000a000a"),
    ("g 0 0 csrrw stopei 0", "0x0000000000000000"),
];

/// Proves that the model answers [`STORES_BEFORE_EVERY_STEP_OF_AN_ARRIVAL`] as it says.
pub fn stores_before_every_step_of_an_arrival()
    ensures { answers (script_of STORES_BEFORE_EVERY_STEP_OF_AN_ARRIVAL)
        ≡ answers_of STORES_BEFORE_EVERY_STEP_OF_AN_ARRIVAL }
{}

/// A device stores values that name no identity before each step of an arrival: all are taken, and
/// none of them makes an identity pending or sends a notice.
pub const STORES_OF_ANY_VALUE_DURING_AN_ARRIVAL: [(&str, &str); 31] = [
    ("machine 1 1 63 8", "ok"),
    ("vm 1 0x8 0", "ok"),
    ("arrive 0 0 0", "ok"),
    ("g 0 0 csrrw siselect 0xc0", "0x0000000000000000"),
    ("g 0 0 csrrw sireg 0xffffffffffffffff", "0x0000000000000000"),
    ("leave 0 0", "ok"),
    ("begin arrive 0 0 0", "ok"),
    ("msi 0 0x28000000 0", "ok"),
    ("step 0 0", "moving"),
    ("msi 0 0x28000000 64", "ok"),
    ("step 0 0", "moving"),
    ("msi 0 0x28000000 2047", "ok"),
    ("step 0 0", "moving"),
    ("msi 0 0x28000000 2048", "ok"),
    ("step 0 0", "moving"),
    ("msi 0 0x28000000 4294967295", "ok"),
    ("step 0 0", "moving"),
    ("msi 0 0x28000000 0", "ok"),
    ("step 0 0", "moving"),
    ("msi 0 0x28000000 64", "ok"),
    ("step 0 0", "moving"),
    ("msi 0 0x28000000 2047", "ok"),
    ("step 0 0", "moving"),
    ("msi 0 0x28000000 2048", "ok"),
    ("step 0 0", "moving"),
    ("msi 0 0x28000000 4294967295", "ok"),
    ("step 0 0", "done"),
    ("g 0 0 csrr stopei", "0x0000000000000000"),
    ("g 0 0 csrr sireg", "0xfffffffffffffffe"),
    ("h 0 csrrw siselect 0x80", "0x0000000000000000"),
    ("h 0 csrr sireg", "0x0000000000000000"),
];

/// Proves that the model answers [`STORES_OF_ANY_VALUE_DURING_AN_ARRIVAL`] as it says.
pub fn stores_of_any_value_during_an_arrival()
    ensures { answers (script_of STORES_OF_ANY_VALUE_DURING_AN_ARRIVAL)
        ≡ answers_of STORES_OF_ANY_VALUE_DURING_AN_ARRIVAL }
{}

/// The one guest file of a hart is out until the last step of a leave; then the other virtual hart
/// gets it, empty, and requests for the first one do not come there.
pub const ONE_GUEST_FILE_FOR_TWO: [(&str, &str); 30] = [
    ("machine 1 1 63 8", "ok"),
    ("vm 2 0x8 0", "ok"),
    ("arrive 0 0 0", "ok"),
    ("begin leave 0 0", "ok"),
    ("arrive 0 1 0", "nofile"),
    ("step 0 0", "moving"),
    ("step 0 0", "moving"),
    ("step 0 0", "moving"),
    ("step 0 0", "moving"),
    ("step 0 0", "moving"),
    ("step 0 0", "moving"),
    ("step 0 0", "moving"),
    ("step 0 0", "moving"),
    ("step 0 0", "moving"),
    ("step 0 0", "moving"),
    ("step 0 0", "moving"),
    ("step 0 0", "moving"),
    ("step 0 0", "done"),
    ("arrive 0 1 0", "ok"),
    ("g 0 1 csrrw siselect 0xc0", "0x0000000000000000"),
    ("g 0 1 csrrw sireg 0xffffffffffffffff", "0x0000000000000000"),
    ("msi 0 0x28000000 5", "ok"),
    ("g 0 1 ipi 0 6", "ok"),
    ("g 0 1 csrr stopei", "0x0000000000000000"),
    ("msi 0 0x28008000 6", "ok"),
    ("g 0 1 csrr stopei", "0x0000000000060006"),
    ("g 0 1 ipi 2 1", "gfault"),
    ("arrive 0 1 0", "home"),
    ("leave 0 0", "parked"),
    ("step 0 0", "idle"),
];

/// Proves that the model answers [`ONE_GUEST_FILE_FOR_TWO`] as it says.
pub fn one_guest_file_for_two()
    ensures { answers (script_of ONE_GUEST_FILE_FOR_TWO) ≡ answers_of ONE_GUEST_FILE_FOR_TWO }
{}

/// A device asks after the fence of a leave and before the enables are in memory: the notice comes
/// at the last step, since a look saw the identity.
pub const STORE_BEFORE_ENABLES_ARE_PUT: [(&str, &str); 24] = [
    ("machine 1 1 63 8", "ok"),
    ("vm 1 0x8 0", "ok"),
    ("arrive 0 0 0", "ok"),
    ("g 0 0 csrrw siselect 0xc0", "0x0000000000000000"),
    ("g 0 0 csrrw sireg 0xffffffffffffffff", "0x0000000000000000"),
    ("h 0 csrrw siselect 0x80", "0x0000000000000000"),
    ("begin leave 0 0", "ok"),
    ("step 0 0", "moving"),
    ("step 0 0", "moving"),
    ("step 0 0", "moving"),
    ("step 0 0", "moving"),
    ("msi 0 0x28000000 5", "ok"),
    ("h 0 csrr sireg", "0x0000000000000000"),
    ("step 0 0", "moving"),
    ("step 0 0", "moving"),
    ("step 0 0", "moving"),
    ("step 0 0", "moving"),
    ("step 0 0", "moving"),
    ("step 0 0", "moving"),
    ("step 0 0", "moving"),
    ("step 0 0", "moving"),
    ("h 0 csrr sireg", "0x0000000000000000"),
    ("step 0 0", "done"),
    ("h 0 csrr sireg", "0x0000000000000002"),
];

/// Proves that the model answers [`STORE_BEFORE_ENABLES_ARE_PUT`] as it says.
pub fn a_store_before_enables_are_put()
    ensures { answers (script_of STORE_BEFORE_ENABLES_ARE_PUT)
        ≡ answers_of STORE_BEFORE_ENABLES_ARE_PUT }
{}

/// A device asks after the enables are in memory and before the look: its store sends a notice, and
/// so does the last step.
pub const STORE_BEFORE_A_LOOK: [(&str, &str); 23] = [
    ("machine 1 1 63 8", "ok"),
    ("vm 1 0x8 0", "ok"),
    ("arrive 0 0 0", "ok"),
    ("g 0 0 csrrw siselect 0xc0", "0x0000000000000000"),
    ("g 0 0 csrrw sireg 0xffffffffffffffff", "0x0000000000000000"),
    ("h 0 csrrw siselect 0x80", "0x0000000000000000"),
    ("begin leave 0 0", "ok"),
    ("step 0 0", "moving"),
    ("step 0 0", "moving"),
    ("step 0 0", "moving"),
    ("step 0 0", "moving"),
    ("step 0 0", "moving"),
    ("step 0 0", "moving"),
    ("step 0 0", "moving"),
    ("step 0 0", "moving"),
    ("step 0 0", "moving"),
    ("step 0 0", "moving"),
    ("msi 0 0x28000000 5", "ok"),
    ("h 0 csrrw sireg 0", "0x0000000000000002"),
    ("step 0 0", "moving"),
    ("step 0 0", "moving"),
    ("step 0 0", "done"),
    ("h 0 csrr sireg", "0x0000000000000002"),
];

/// Proves that the model answers [`STORE_BEFORE_A_LOOK`] as it says.
pub fn a_store_before_a_look()
    ensures { answers (script_of STORE_BEFORE_A_LOOK) ≡ answers_of STORE_BEFORE_A_LOOK }
{}

/// The first step of a leave takes the signal away from hgeip, and an arrival brings it back; in
/// between the guest is away and can't be moved otherwise.
pub const SIGNAL_DURING_A_LEAVE: [(&str, &str); 30] = [
    ("machine 1 1 63 8", "ok"),
    ("vm 1 0x8 0", "ok"),
    ("arrive 0 0 0", "ok"),
    ("g 0 0 csrrw siselect 0xc0", "0x0000000000000000"),
    ("g 0 0 csrrw sireg 0xffffffffffffffff", "0x0000000000000000"),
    ("g 0 0 csrrw siselect 0x70", "0x00000000000000c0"),
    ("g 0 0 csrrw sireg 1", "0x0000000000000000"),
    ("msi 0 0x28000000 5", "ok"),
    ("h 0 hgeip", "0x0000000000000002"),
    ("begin leave 0 0", "ok"),
    ("h 0 hgeip", "0x0000000000000002"),
    ("step 0 0", "moving"),
    ("h 0 hgeip", "0x0000000000000000"),
    ("g 0 0 csrr stopei", "away"),
    ("leave 0 0", "busy"),
    ("step 0 0", "moving"),
    ("step 0 0", "moving"),
    ("step 0 0", "moving"),
    ("step 0 0", "moving"),
    ("step 0 0", "moving"),
    ("step 0 0", "moving"),
    ("step 0 0", "moving"),
    ("step 0 0", "moving"),
    ("step 0 0", "moving"),
    ("step 0 0", "moving"),
    ("step 0 0", "moving"),
    ("step 0 0", "done"),
    ("h 0 hgeip", "0x0000000000000000"),
    ("arrive 0 0 0", "ok"),
    ("h 0 hgeip", "0x0000000000000002"),
];

/// Proves that the model answers [`SIGNAL_DURING_A_LEAVE`] as it says.
pub fn the_signal_during_a_leave()
    ensures { answers (script_of SIGNAL_DURING_A_LEAVE) ≡ answers_of SIGNAL_DURING_A_LEAVE }
{}

/// The hypervisor injects a major while the virtual hart is moved; it stands after the next
/// arrival.
pub const MAJORS_DURING_A_MOVE: [(&str, &str); 24] = [
    ("machine 1 1 63 8", "ok"),
    ("vm 1 0x8 0", "ok"),
    ("arrive 0 0 0", "ok"),
    ("g 0 0 csrrw siselect 0xc0", "0x0000000000000000"),
    ("g 0 0 csrrw sireg 0xffffffffffffffff", "0x0000000000000000"),
    ("begin leave 0 0", "ok"),
    ("inject 0 0 13 1", "ok"),
    ("hvictl 0 0 0x40000000", "range"),
    ("g 0 0 csrr sip", "away"),
    ("step 0 0", "moving"),
    ("step 0 0", "moving"),
    ("step 0 0", "moving"),
    ("step 0 0", "moving"),
    ("step 0 0", "moving"),
    ("step 0 0", "moving"),
    ("step 0 0", "moving"),
    ("step 0 0", "moving"),
    ("step 0 0", "moving"),
    ("step 0 0", "moving"),
    ("step 0 0", "moving"),
    ("step 0 0", "moving"),
    ("step 0 0", "done"),
    ("arrive 0 0 0", "ok"),
    ("g 0 0 csrr sip", "0x0000000000002000"),
];

/// Proves that the model answers [`MAJORS_DURING_A_MOVE`] as it says.
pub fn majors_during_a_move()
    ensures { answers (script_of MAJORS_DURING_A_MOVE) ≡ answers_of MAJORS_DURING_A_MOVE }
{}

/// In an arrival a store of another virtual hart reaches memory, and sends a notice, until the G
/// fence; after it, the guest file.
pub const PEERS_REACH_MEMORY_UNTIL_THE_G_FENCE: [(&str, &str); 17] = [
    ("machine 1 2 63 8", "ok"),
    ("vm 2 0x8 0", "ok"),
    ("arrive 0 0 0", "ok"),
    ("arrive 0 1 0", "ok"),
    ("g 0 0 csrrw siselect 0xc0", "0x0000000000000000"),
    ("g 0 0 csrrw sireg 0xfffffffffffffffe", "0x0000000000000000"),
    ("leave 0 0", "ok"),
    ("h 0 csrrw siselect 0x80", "0x0000000000000000"),
    ("begin arrive 0 0 0", "ok"),
    ("step 0 0", "moving"),
    ("step 0 0", "moving"),
    ("step 0 0", "moving"),
    ("g 0 1 ipi 0 5", "ok"),
    ("h 0 csrrw sireg 0", "0x0000000000000002"),
    ("step 0 0", "moving"),
    ("g 0 1 ipi 0 6", "ok"),
    ("h 0 csrrw sireg 0", "0x0000000000000000"),
];

/// Proves that the model answers [`PEERS_REACH_MEMORY_UNTIL_THE_G_FENCE`] as it says.
pub fn peers_reach_memory_until_the_g_fence()
    ensures { answers (script_of PEERS_REACH_MEMORY_UNTIL_THE_G_FENCE)
        ≡ answers_of PEERS_REACH_MEMORY_UNTIL_THE_G_FENCE }
{}

/// A guest file that is left is free once the leave has done its last step, not before.
pub const FILE_COMES_BACK_AT_THE_END: [(&str, &str); 22] = [
    ("machine 1 1 63 8", "ok"),
    ("vm 1 0x8 0", "ok"),
    ("arrive 0 0 0", "ok"),
    ("g 0 0 csrrw siselect 0xc0", "0x0000000000000000"),
    ("g 0 0 csrrw sireg 0xffffffffffffffff", "0x0000000000000000"),
    ("vm 1 0x8 0", "ok"),
    ("begin leave 0 0", "ok"),
    ("step 0 0", "moving"),
    ("step 0 0", "moving"),
    ("step 0 0", "moving"),
    ("step 0 0", "moving"),
    ("step 0 0", "moving"),
    ("step 0 0", "moving"),
    ("step 0 0", "moving"),
    ("step 0 0", "moving"),
    ("step 0 0", "moving"),
    ("step 0 0", "moving"),
    ("step 0 0", "moving"),
    ("step 0 0", "moving"),
    ("arrive 1 0 0", "nofile"),
    ("step 0 0", "done"),
    ("arrive 1 0 0", "ok"),
];

/// Proves that the model answers [`FILE_COMES_BACK_AT_THE_END`] as it says.
pub fn a_file_comes_back_at_the_end()
    ensures { answers (script_of FILE_COMES_BACK_AT_THE_END)
        ≡ answers_of FILE_COMES_BACK_AT_THE_END }
{}

/// A shift holds both guest files until its last step.
pub const SHIFT_HOLDS_TWO_FILES: [(&str, &str); 18] = [
    ("machine 1 2 63 8", "ok"),
    ("vm 2 0x8 0", "ok"),
    ("arrive 0 0 0", "ok"),
    ("begin shift 0 0 0", "ok"),
    ("step 0 0", "moving"),
    ("step 0 0", "moving"),
    ("step 0 0", "moving"),
    ("step 0 0", "moving"),
    ("step 0 0", "moving"),
    ("step 0 0", "moving"),
    ("step 0 0", "moving"),
    ("step 0 0", "moving"),
    ("step 0 0", "moving"),
    ("step 0 0", "moving"),
    ("step 0 0", "moving"),
    ("arrive 0 1 0", "nofile"),
    ("step 0 0", "done"),
    ("arrive 0 1 0", "ok"),
];

/// Proves that the model answers [`SHIFT_HOLDS_TWO_FILES`] as it says.
pub fn a_shift_holds_two_files()
    ensures { answers (script_of SHIFT_HOLDS_TWO_FILES) ≡ answers_of SHIFT_HOLDS_TWO_FILES }
{}

/// In an arrival a store of a device reaches memory, and sends a notice, until the fence; after it,
/// the guest file.
pub const DEVICES_REACH_MEMORY_UNTIL_THE_FENCE: [(&str, &str); 15] = [
    ("machine 1 2 63 8", "ok"),
    ("vm 2 0x8 0", "ok"),
    ("arrive 0 0 0", "ok"),
    ("arrive 0 1 0", "ok"),
    ("g 0 0 csrrw siselect 0xc0", "0x0000000000000000"),
    ("g 0 0 csrrw sireg 0xfffffffffffffffe", "0x0000000000000000"),
    ("leave 0 0", "ok"),
    ("h 0 csrrw siselect 0x80", "0x0000000000000000"),
    ("begin arrive 0 0 0", "ok"),
    ("step 0 0", "moving"),
    ("msi 0 0x28000000 5", "ok"),
    ("h 0 csrrw sireg 0", "0x0000000000000002"),
    ("step 0 0", "moving"),
    ("msi 0 0x28000000 6", "ok"),
    ("h 0 csrrw sireg 0", "0x0000000000000000"),
];

/// Proves that the model answers [`DEVICES_REACH_MEMORY_UNTIL_THE_FENCE`] as it says.
pub fn devices_reach_memory_until_the_fence()
    ensures { answers (script_of DEVICES_REACH_MEMORY_UNTIL_THE_FENCE)
        ≡ answers_of DEVICES_REACH_MEMORY_UNTIL_THE_FENCE }
{}

/// In a leave a store of a device sends a notice once the enables of its word are in memory, and
/// not before.
pub const NOTICES_ONCE_ENABLES_ARE_PUT: [(&str, &str); 21] = [
    ("machine 1 1 63 8", "ok"),
    ("vm 1 0x8 0", "ok"),
    ("arrive 0 0 0", "ok"),
    ("g 0 0 csrrw siselect 0xc0", "0x0000000000000000"),
    ("g 0 0 csrrw sireg 0xffffffffffffffff", "0x0000000000000000"),
    ("h 0 csrrw siselect 0x80", "0x0000000000000000"),
    ("begin leave 0 0", "ok"),
    ("step 0 0", "moving"),
    ("step 0 0", "moving"),
    ("step 0 0", "moving"),
    ("step 0 0", "moving"),
    ("step 0 0", "moving"),
    ("step 0 0", "moving"),
    ("step 0 0", "moving"),
    ("step 0 0", "moving"),
    ("step 0 0", "moving"),
    ("msi 0 0x28000000 5", "ok"),
    ("h 0 csrr sireg", "0x0000000000000000"),
    ("step 0 0", "moving"),
    ("msi 0 0x28000000 6", "ok"),
    ("h 0 csrr sireg", "0x0000000000000002"),
];

/// Proves that the model answers [`NOTICES_ONCE_ENABLES_ARE_PUT`] as it says.
pub fn notices_once_enables_are_put()
    ensures { answers (script_of NOTICES_ONCE_ENABLES_ARE_PUT)
        ≡ answers_of NOTICES_ONCE_ENABLES_ARE_PUT }
{}

/// A file of two words leaves: each word's stores send notices once that word's enables are in
/// memory.
pub const EACH_WORD_BY_ITSELF: [(&str, &str); 29] = [
    ("machine 1 1 127 8", "ok"),
    ("vm 1 0x8 0", "ok"),
    ("arrive 0 0 0", "ok"),
    ("g 0 0 csrrw siselect 0xc0", "0x0000000000000000"),
    ("g 0 0 csrrw sireg 0xfffffffffffffffe", "0x0000000000000000"),
    ("g 0 0 csrrw siselect 0xc2", "0x00000000000000c0"),
    ("g 0 0 csrrw sireg 0xffffffffffffffff", "0x0000000000000000"),
    ("h 0 csrrw siselect 0x80", "0x0000000000000000"),
    ("begin leave 0 0", "ok"),
    ("step 0 0", "moving"),
    ("step 0 0", "moving"),
    ("step 0 0", "moving"),
    ("step 0 0", "moving"),
    ("step 0 0", "moving"),
    ("step 0 0", "moving"),
    ("step 0 0", "moving"),
    ("step 0 0", "moving"),
    ("step 0 0", "moving"),
    ("step 0 0", "moving"),
    ("step 0 0", "moving"),
    ("step 0 0", "moving"),
    ("msi 0 0x28000000 70", "ok"),
    ("h 0 csrr sireg", "0x0000000000000000"),
    ("msi 0 0x28000000 5", "ok"),
    ("h 0 csrrw sireg 0", "0x0000000000000002"),
    ("step 0 0", "moving"),
    ("step 0 0", "moving"),
    ("msi 0 0x28000000 70", "ok"),
    ("h 0 csrr sireg", "0x0000000000000002"),
];

/// Proves that the model answers [`EACH_WORD_BY_ITSELF`] as it says.
pub fn each_word_by_itself()
    ensures { answers (script_of EACH_WORD_BY_ITSELF) ≡ answers_of EACH_WORD_BY_ITSELF }
{}

/// The first step of a shift takes the signal away from hgeip; its end brings it to the new file.
pub const SIGNAL_DURING_A_SHIFT: [(&str, &str); 25] = [
    ("machine 1 2 63 8", "ok"),
    ("vm 1 0x8 0", "ok"),
    ("arrive 0 0 0", "ok"),
    ("g 0 0 csrrw siselect 0xc0", "0x0000000000000000"),
    ("g 0 0 csrrw sireg 0x20", "0x0000000000000000"),
    ("g 0 0 csrrw siselect 0x70", "0x00000000000000c0"),
    ("g 0 0 csrrw sireg 1", "0x0000000000000000"),
    ("msi 0 0x28000000 5", "ok"),
    ("begin shift 0 0 0", "ok"),
    ("h 0 hgeip", "0x0000000000000002"),
    ("step 0 0", "moving"),
    ("h 0 hgeip", "0x0000000000000000"),
    ("step 0 0", "moving"),
    ("step 0 0", "moving"),
    ("step 0 0", "moving"),
    ("step 0 0", "moving"),
    ("step 0 0", "moving"),
    ("step 0 0", "moving"),
    ("step 0 0", "moving"),
    ("step 0 0", "moving"),
    ("step 0 0", "moving"),
    ("step 0 0", "moving"),
    ("h 0 hgeip", "0x0000000000000000"),
    ("step 0 0", "done"),
    ("h 0 hgeip", "0x0000000000000004"),
];

/// Proves that the model answers [`SIGNAL_DURING_A_SHIFT`] as it says.
pub fn the_signal_during_a_shift()
    ensures { answers (script_of SIGNAL_DURING_A_SHIFT) ≡ answers_of SIGNAL_DURING_A_SHIFT }
{}

/// Steps of virtual harts that aren't there or aren't moved, beginnings of moves that can't be, and
/// words that spell neither.
pub const STEPS_AND_BEGINNINGS_ARE_REFUSED: [(&str, &str); 55] = [
    ("step 0 0", "nomachine"),
    ("begin leave 0 0", "nomachine"),
    ("machine 2 1 63 8", "ok"),
    ("step 0 0", "range"),
    ("vm 2 0x8 0", "ok"),
    ("step 0 0", "idle"),
    ("step 0 2", "range"),
    ("step 4294967296 0", "range"),
    ("begin leave 0 0", "parked"),
    ("begin shift 0 0 1", "parked"),
    ("begin arrive 0 0 2", "range"),
    ("begin arrive 1 0 0", "range"),
    ("begin leave 1 0", "range"),
    ("begin shift 1 0 0", "range"),
    ("begin shift 0 0 9", "range"),
    ("arrive 1 0 0", "range"),
    ("leave 1 0", "range"),
    ("shift 1 0 0", "range"),
    ("g 1 0 ipi 0 1", "range"),
    ("g 0 2 ipi 0 1", "range"),
    ("begin arrive 0 0 0", "ok"),
    ("begin arrive 0 0 0", "busy"),
    ("begin leave 0 0", "busy"),
    ("begin shift 0 0 1", "busy"),
    ("leave 0 0", "busy"),
    ("arrive 0 0 0", "busy"),
    ("shift 0 0 1", "busy"),
    ("shift 0 0 2", "range"),
    ("begin arrive 0 1 0", "nofile"),
    ("arrive 0 1 0", "nofile"),
    ("g 0 0 csrr stopei", "away"),
    ("g 0 0 ipi 1 5", "away"),
    ("step 0 0", "moving"),
    ("step 0 0 0", "bad"),
    ("begin 0 0", "bad"),
    ("begin step 0 0", "bad"),
    ("begin  leave 0 0", "bad"),
    ("begin leave 0", "bad"),
    ("begin arrive 0 0", "bad"),
    ("step 0x0 0x0", "moving"),
    ("step 0 0", "moving"),
    ("step 0 0", "moving"),
    ("step 0 0", "moving"),
    ("step 0 0", "moving"),
    ("step 0 0", "moving"),
    ("step 0 0", "moving"),
    ("step 0 0", "moving"),
    ("step 0 0", "done"),
    ("step 0 0", "idle"),
    ("begin arrive 0 0 0", "home"),
    ("arrive 0 0 1", "home"),
    ("begin shift 0 0 0", "nofile"),
    ("begin shift 0 0 1", "ok"),
    ("begin arrive 0 1 1", "nofile"),
    ("leave 0 0", "busy"),
];

/// Proves that the model answers [`STEPS_AND_BEGINNINGS_ARE_REFUSED`] as it says.
pub fn steps_and_beginnings_are_refused()
    ensures { answers (script_of STEPS_AND_BEGINNINGS_ARE_REFUSED)
        ≡ answers_of STEPS_AND_BEGINNINGS_ARE_REFUSED }
{}

/// Two virtual harts are moved at once, their steps in turn; each file keeps what is its own, and a
/// third one, which is not moved, asks at both.
pub const TWO_MOVES_AT_ONCE: [(&str, &str); 39] = [
    ("machine 2 2 63 8", "ok"),
    ("vm 3 0x18 0", "ok"),
    ("arrive 0 0 0", "ok"),
    ("arrive 0 2 1", "ok"),
    ("g 0 0 csrrw siselect 0xc0", "0x0000000000000000"),
    ("g 0 0 csrrw sireg 0x60", "0x0000000000000000"),
    ("begin arrive 0 1 0", "ok"),
    ("begin shift 0 0 1", "ok"),
    ("step 0 0", "moving"),
    ("step 0 1", "moving"),
    ("step 0 0", "moving"),
    ("step 0 1", "moving"),
    ("g 0 2 ipi 0 5", "ok"),
    ("g 0 2 ipi 1 7", "ok"),
    ("msi 0 0x28000000 6", "ok"),
    ("msi 0 0x28008000 9", "ok"),
    ("step 0 0", "moving"),
    ("step 0 1", "moving"),
    ("step 0 0", "moving"),
    ("step 0 1", "moving"),
    ("step 0 0", "moving"),
    ("step 0 1", "moving"),
    ("step 0 0", "moving"),
    ("step 0 1", "moving"),
    ("step 0 0", "moving"),
    ("step 0 1", "moving"),
    ("step 0 0", "moving"),
    ("step 0 1", "moving"),
    ("step 0 0", "moving"),
    ("step 0 1", "moving"),
    ("step 0 1", "done"),
    ("step 0 0", "moving"),
    ("step 0 0", "moving"),
    ("step 0 0", "done"),
    ("g 0 0 csrrw stopei 0", "0x0000000000050005"),
    ("g 0 0 csrrw stopei 0", "0x0000000000060006"),
    ("g 0 0 csrrw stopei 0", "0x0000000000000000"),
    ("g 0 1 csrrw siselect 0x80", "0x0000000000000000"),
    ("g 0 1 csrr sireg", "0x0000000000000280"),
];

/// Proves that the model answers [`TWO_MOVES_AT_ONCE`] as it says.
pub fn two_moves_at_once()
    ensures { answers (script_of TWO_MOVES_AT_ONCE) ≡ answers_of TWO_MOVES_AT_ONCE }
{}
