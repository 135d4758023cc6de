use aia_plan::Kind;

/// What the program is to do. Profile.
#[derive(Clone, Copy, Debug, PartialEq, Eq)]
pub enum Subcommand {
    /// Answer the lines of a script.
    Replay,

    /// Run the script that two numbers generate, and write its summary: `count` lines, 0 to
    /// [`MOST_LINES`](crate::MOST_LINES), after its head, drawn by the numbers after `seed`.
    Generate { count: u64, seed: u64 },

    /// Judge the plan of a move of a kind, between places whose sets have `words` words of 64
    /// identities: 1, 2, 4, 8, 16 or 32.
    Audit { kind: Kind, words: u32 },
}
