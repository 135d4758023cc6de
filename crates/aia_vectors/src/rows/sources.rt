//! Wired sources: modes, levels and edges, delegation.
//!
//! Made of suite/rows/sources.rows by suite/make: edit the rows.

ghost use Rattle.std.specs.Prelude.{◌≡◌};
ghost use Rattle.aia_model.specs.Script.{answers};
ghost use Rattle.aia_vectors.specs.Rows.{script_of, answers_of};

/// A level source of a low wire is pending exactly while the wire is low, whatever is stored; one
/// of falling edges becomes pending when its wire falls, and not when it rises.
pub const LEVEL_LOW_AND_FALLING_EDGE: [(&str, &str); 13] = [
    ("machine 1 0 63 8", "ok"),
    ("st 0x0c000004 7", "ok"),
    ("ld 0x0c001c00", "0x00000002"),
    ("ld 0x0c001d00", "0x00000002"),
    ("st 0x0c001d00 2", "ok"),
    ("ld 0x0c001c00", "0x00000002"),
    ("wire 1 1", "ok"),
    ("ld 0x0c001c00", "0x00000000"),
    ("st 0x0c000008 5", "ok"),
    ("wire 2 1", "ok"),
    ("ld 0x0c001c00", "0x00000000"),
    ("wire 2 0", "ok"),
    ("ld 0x0c001c00", "0x00000004"),
];

/// Proves that the model answers [`LEVEL_LOW_AND_FALLING_EDGE`] as it says.
pub fn a_source_is_pending_by_its_level_or_edge()
    ensures { answers (script_of LEVEL_LOW_AND_FALLING_EDGE)
        ≡ answers_of LEVEL_LOW_AND_FALLING_EDGE }
{}

/// A detached source doesn't hear its wire. One of rising edges hears each rise that a `wire` line
/// makes while it has that mode: a wire that is high already makes none.
pub const EDGES_ARE_RISES_OF_A_WIRE: [(&str, &str); 20] = [
    ("machine 1 0 63 8", "ok"),
    ("st 0x0c000004 1", "ok"),
    ("wire 1 1", "ok"),
    ("ld 0x0c001c00", "0x00000000"),
    ("ld 0x0c001d00", "0x00000000"),
    ("st 0x0c000004 4", "ok"),
    ("ld 0x0c001c00", "0x00000000"),
    ("ld 0x0c001d00", "0x00000002"),
    ("wire 1 1", "ok"),
    ("ld 0x0c001c00", "0x00000000"),
    ("wire 1 0", "ok"),
    ("wire 1 1", "ok"),
    ("ld 0x0c001c00", "0x00000002"),
    ("st 0x0c001d00 2", "ok"),
    ("wire 1 1", "ok"),
    ("ld 0x0c001c00", "0x00000000"),
    ("wire 1 0", "ok"),
    ("st 0x0c002000 1", "ok"),
    ("ld 0x0c001c00", "0x00000002"),
    ("ld 0x0c001d00", "0x00000000"),
];

/// Proves that the model answers [`EDGES_ARE_RISES_OF_A_WIRE`] as it says.
pub fn an_edge_is_a_rise_of_a_wire()
    ensures { answers (script_of EDGES_ARE_RISES_OF_A_WIRE) ≡ answers_of EDGES_ARE_RISES_OF_A_WIRE }
{}

/// Nothing that is stored sets the pending bit of a level source or clears it.
pub const LEVELS_HEAR_NO_STORE: [(&str, &str); 20] = [
    ("machine 1 0 63 8", "ok"),
    ("st 0x0c000004 6", "ok"),
    ("st 0x0c000008 7", "ok"),
    ("ld 0x0c001c00", "0x00000004"),
    ("st 0x0c001c00 0xffffffff", "ok"),
    ("st 0x0c001cdc 1", "ok"),
    ("st 0x0c002000 1", "ok"),
    ("st 0x0c002004 0x01000000", "ok"),
    ("ld 0x0c001c00", "0x00000004"),
    ("wire 1 1", "ok"),
    ("ld 0x0c001c00", "0x00000006"),
    ("st 0x0c001d00 0xffffffff", "ok"),
    ("st 0x0c001ddc 1", "ok"),
    ("st 0x0c001ddc 2", "ok"),
    ("ld 0x0c001c00", "0x00000006"),
    ("ld 0x0c001d00", "0x00000006"),
    ("wire 2 1", "ok"),
    ("ld 0x0c001c00", "0x00000002"),
    ("wire 1 0", "ok"),
    ("ld 0x0c001c00", "0x00000000"),
];

/// Proves that the model answers [`LEVELS_HEAR_NO_STORE`] as it says.
pub fn a_level_source_hears_no_store()
    ensures { answers (script_of LEVELS_HEAR_NO_STORE) ≡ answers_of LEVELS_HEAR_NO_STORE }
{}

/// The rectified input goes up and down with the mode, and no edge is heard; a level mode goes by
/// its input at once. The enable bit and the target stay between two active modes.
pub const MODES_CHANGE_WITH_NO_RISE: [(&str, &str); 28] = [
    ("machine 2 0 63 8", "ok"),
    ("st 0x0c000004 5", "ok"),
    ("ld 0x0c001c00", "0x00000000"),
    ("ld 0x0c001d00", "0x00000002"),
    ("st 0x0c001edc 1", "ok"),
    ("st 0x0c003004 0x40009", "ok"),
    ("st 0x0c000004 4", "ok"),
    ("ld 0x0c001d00", "0x00000000"),
    ("st 0x0c000004 5", "ok"),
    ("ld 0x0c001c00", "0x00000000"),
    ("ld 0x0c001e00", "0x00000002"),
    ("ld 0x0c003004", "0x00040009"),
    ("wire 1 1", "ok"),
    ("ld 0x0c001c00", "0x00000000"),
    ("wire 1 0", "ok"),
    ("ld 0x0c001c00", "0x00000002"),
    ("st 0x0c000004 1", "ok"),
    ("ld 0x0c001c00", "0x00000002"),
    ("ld 0x0c001d00", "0x00000000"),
    ("st 0x0c000004 6", "ok"),
    ("ld 0x0c001c00", "0x00000000"),
    ("st 0x0c000004 7", "ok"),
    ("ld 0x0c001c00", "0x00000002"),
    ("st 0x0c000004 4", "ok"),
    ("ld 0x0c001c00", "0x00000002"),
    ("ld 0x0c001d00", "0x00000000"),
    ("ld 0x0c001e00", "0x00000002"),
    ("ld 0x0c003004", "0x00040009"),
];

/// Proves that the model answers [`MODES_CHANGE_WITH_NO_RISE`] as it says.
pub fn a_change_of_mode_makes_no_rise()
    ensures { answers (script_of MODES_CHANGE_WITH_NO_RISE) ≡ answers_of MODES_CHANGE_WITH_NO_RISE }
{}

/// An inactive source has no pending bit, no enable bit and no target, and keeps nothing that is
/// stored; one that becomes active is not enabled, and its target is hart 0 with priority 1.
pub const SOURCES_BEGIN_ANEW: [(&str, &str); 26] = [
    ("machine 2 0 63 8", "ok"),
    ("st 0x0c000004 1", "ok"),
    ("st 0x0c001cdc 1", "ok"),
    ("st 0x0c001edc 1", "ok"),
    ("st 0x0c003004 0x40009", "ok"),
    ("ld 0x0c001c00", "0x00000002"),
    ("ld 0x0c001e00", "0x00000002"),
    ("ld 0x0c003004", "0x00040009"),
    ("st 0x0c000004 0", "ok"),
    ("ld 0x0c001c00", "0x00000000"),
    ("ld 0x0c001e00", "0x00000000"),
    ("ld 0x0c003004", "0x00000000"),
    ("st 0x0c001cdc 1", "ok"),
    ("st 0x0c001edc 1", "ok"),
    ("st 0x0c003004 0x40009", "ok"),
    ("ld 0x0c001c00", "0x00000000"),
    ("ld 0x0c001e00", "0x00000000"),
    ("ld 0x0c003004", "0x00000000"),
    ("st 0x0c000004 4", "ok"),
    ("ld 0x0c001c00", "0x00000000"),
    ("ld 0x0c001e00", "0x00000000"),
    ("ld 0x0c003004", "0x00000001"),
    ("st 0x0c001edc 1", "ok"),
    ("st 0x0c000004 2", "ok"),
    ("st 0x0c000004 1", "ok"),
    ("ld 0x0c001e00", "0x00000000"),
];

/// Proves that the model answers [`SOURCES_BEGIN_ANEW`] as it says.
pub fn a_source_begins_anew()
    ensures { answers (script_of SOURCES_BEGIN_ANEW) ≡ answers_of SOURCES_BEGIN_ANEW }
{}

/// A source that is delegated has its registers only in the child domain, until it is taken back; a
/// source that isn't has none there, and another child index and a reserved mode make the root
/// domain's register 0.
pub const DELEGATION_GIVEN_AND_TAKEN_BACK: [(&str, &str); 19] = [
    ("machine 1 0 63 8", "ok"),
    ("st 0x0c000004 0x400", "ok"),
    ("st 0x0c008004 4", "ok"),
    ("st 0x0c009edc 1", "ok"),
    ("st 0x0c00b004 3", "ok"),
    ("ld 0x0c008004", "0x00000004"),
    ("ld 0x0c00b004", "0x00000003"),
    ("ld 0x0c009e00", "0x00000002"),
    ("ld 0x0c003004", "0x00000000"),
    ("st 0x0c008008 4", "ok"),
    ("ld 0x0c008008", "0x00000000"),
    ("st 0x0c000004 0", "ok"),
    ("ld 0x0c008004", "0x00000000"),
    ("ld 0x0c00b004", "0x00000000"),
    ("ld 0x0c009e00", "0x00000000"),
    ("st 0x0c000004 0x401", "ok"),
    ("ld 0x0c000004", "0x00000000"),
    ("st 0x0c000004 2", "ok"),
    ("ld 0x0c000004", "0x00000000"),
];

/// Proves that the model answers [`DELEGATION_GIVEN_AND_TAKEN_BACK`] as it says.
pub fn a_source_is_delegated_and_taken_back()
    ensures { answers (script_of DELEGATION_GIVEN_AND_TAKEN_BACK)
        ≡ answers_of DELEGATION_GIVEN_AND_TAKEN_BACK }
{}

/// A source that is delegated already is delegated again, D is written in the child domain, and the
/// root domain gives a mode to a source whose wire is high.
pub const DELEGATED_TWICE_AND_TAKEN_BACK_HIGH: [(&str, &str); 11] = [
    ("machine 1 0 63 8", "ok"),
    ("st 0x0c000004 0x400", "ok"),
    ("st 0x0c008004 6", "ok"),
    ("wire 1 1", "ok"),
    ("st 0x0c000004 0x400", "ok"),
    ("ld 0x0c008004", "0x00000006"),
    ("st 0x0c008004 0x406", "ok"),
    ("ld 0x0c008004", "0x00000000"),
    ("st 0x0c000004 6", "ok"),
    ("ld 0x0c001c00", "0x00000002"),
    ("ld 0x0c009c00", "0x00000000"),
];

/// Proves that the model answers [`DELEGATED_TWICE_AND_TAKEN_BACK_HIGH`] as it says.
pub fn a_high_source_is_taken_back()
    ensures { answers (script_of DELEGATED_TWICE_AND_TAKEN_BACK_HIGH)
        ≡ answers_of DELEGATED_TWICE_AND_TAKEN_BACK_HIGH }
{}

/// A source is pending, enabled and aimed in the child domain: delegating it again leaves all of
/// that, and taking it back leaves nothing. Where it gets a level mode it is pending by its input;
/// where it gets an edge mode it is not pending.
pub const TAKEN_BACK_WHILE_PENDING: [(&str, &str); 33] = [
    ("machine 1 0 63 8", "ok"),
    ("st 0x0c000004 0x400", "ok"),
    ("st 0x0c008004 4", "ok"),
    ("st 0x0c009edc 1", "ok"),
    ("st 0x0c00b004 5", "ok"),
    ("wire 1 1", "ok"),
    ("st 0x0c000004 0x400", "ok"),
    ("ld 0x0c008004", "0x00000004"),
    ("ld 0x0c009c00", "0x00000002"),
    ("ld 0x0c009e00", "0x00000002"),
    ("ld 0x0c00b004", "0x00000005"),
    ("st 0x0c000004 6", "ok"),
    ("ld 0x0c001c00", "0x00000002"),
    ("ld 0x0c001e00", "0x00000000"),
    ("ld 0x0c003004", "0x00000001"),
    ("ld 0x0c008004", "0x00000000"),
    ("ld 0x0c009c00", "0x00000000"),
    ("ld 0x0c009d00", "0x00000000"),
    ("ld 0x0c009e00", "0x00000000"),
    ("ld 0x0c00b004", "0x00000000"),
    ("st 0x0c000004 0x400", "ok"),
    ("ld 0x0c001c00", "0x00000000"),
    ("ld 0x0c008004", "0x00000000"),
    ("st 0x0c008004 4", "ok"),
    ("ld 0x0c009c00", "0x00000000"),
    ("ld 0x0c009d00", "0x00000002"),
    ("ld 0x0c009e00", "0x00000000"),
    ("ld 0x0c00b004", "0x00000001"),
    ("st 0x0c009cdc 1", "ok"),
    ("ld 0x0c009c00", "0x00000002"),
    ("st 0x0c000004 4", "ok"),
    ("ld 0x0c001c00", "0x00000000"),
    ("ld 0x0c001d00", "0x00000002"),
];

/// Proves that the model answers [`TAKEN_BACK_WHILE_PENDING`] as it says.
pub fn a_pending_source_is_taken_back()
    ensures { answers (script_of TAKEN_BACK_WHILE_PENDING) ≡ answers_of TAKEN_BACK_WHILE_PENDING }
{}

/// All that the child domain writes about a source that isn't delegated to it.
pub const CHILD_LEAVES_SOURCES_OF_THE_ROOT: [(&str, &str); 24] = [
    ("machine 1 0 63 8", "ok"),
    ("st 0x0c000004 6", "ok"),
    ("wire 1 1", "ok"),
    ("st 0x0c001edc 1", "ok"),
    ("st 0x0c003004 7", "ok"),
    ("st 0x0c008004 4", "ok"),
    ("st 0x0c009c00 0xffffffff", "ok"),
    ("st 0x0c009cdc 1", "ok"),
    ("st 0x0c009e00 0xffffffff", "ok"),
    ("st 0x0c009edc 1", "ok"),
    ("st 0x0c00b004 9", "ok"),
    ("ld 0x0c008004", "0x00000000"),
    ("ld 0x0c009c00", "0x00000000"),
    ("ld 0x0c009d00", "0x00000000"),
    ("ld 0x0c009e00", "0x00000000"),
    ("ld 0x0c00b004", "0x00000000"),
    ("st 0x0c009d00 0xffffffff", "ok"),
    ("st 0x0c009ddc 1", "ok"),
    ("st 0x0c009f00 0xffffffff", "ok"),
    ("st 0x0c009fdc 1", "ok"),
    ("ld 0x0c000004", "0x00000006"),
    ("ld 0x0c001c00", "0x00000002"),
    ("ld 0x0c001e00", "0x00000002"),
    ("ld 0x0c003004", "0x00000007"),
];

/// Proves that the model answers [`CHILD_LEAVES_SOURCES_OF_THE_ROOT`] as it says.
pub fn the_child_leaves_a_source_of_the_root()
    ensures { answers (script_of CHILD_LEAVES_SOURCES_OF_THE_ROOT)
        ≡ answers_of CHILD_LEAVES_SOURCES_OF_THE_ROOT }
{}

/// All that the root domain writes about a source that it delegates, but for its sourcecfg.
pub const ROOT_LEAVES_DELEGATED_SOURCES: [(&str, &str); 26] = [
    ("machine 1 0 63 8", "ok"),
    ("st 0x0c000008 0x400", "ok"),
    ("st 0x0c008008 1", "ok"),
    ("st 0x0c001c00 0xffffffff", "ok"),
    ("st 0x0c001cdc 2", "ok"),
    ("st 0x0c001e00 0xffffffff", "ok"),
    ("st 0x0c001edc 2", "ok"),
    ("st 0x0c003008 9", "ok"),
    ("ld 0x0c001c00", "0x00000000"),
    ("ld 0x0c001e00", "0x00000000"),
    ("ld 0x0c003008", "0x00000000"),
    ("ld 0x0c009c00", "0x00000000"),
    ("ld 0x0c009e00", "0x00000000"),
    ("ld 0x0c00b008", "0x00000001"),
    ("st 0x0c009cdc 2", "ok"),
    ("st 0x0c009edc 2", "ok"),
    ("st 0x0c00b008 6", "ok"),
    ("st 0x0c001d00 0xffffffff", "ok"),
    ("st 0x0c001ddc 2", "ok"),
    ("st 0x0c001f00 0xffffffff", "ok"),
    ("st 0x0c001fdc 2", "ok"),
    ("ld 0x0c009c00", "0x00000004"),
    ("ld 0x0c009e00", "0x00000004"),
    ("ld 0x0c00b008", "0x00000006"),
    ("ld 0x0c001c00", "0x00000000"),
    ("ld 0x0c001e00", "0x00000000"),
];

/// Proves that the model answers [`ROOT_LEAVES_DELEGATED_SOURCES`] as it says.
pub fn the_root_leaves_a_delegated_source()
    ensures { answers (script_of ROOT_LEAVES_DELEGATED_SOURCES)
        ≡ answers_of ROOT_LEAVES_DELEGATED_SOURCES }
{}
