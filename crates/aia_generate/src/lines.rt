//! The lines of a generated script: each by its number, and all of them in order.

ghost use Rattle.std.specs.Prelude.{◌≡◌, ◌≤◌, All};
ghost use Rattle.aia_model.specs.Forms.{IsListed};
ghost use Rattle.aia_generate.specs.Generated.{generated, line_at};
ghost use Rattle.aia_generate.specs.Lines.{lines_left};

use crate::body::{lcg, line_drawn};
use crate::head::{HEAD_LINES, head_line};
use aia_model::Line;

/// Gives line `k` of a generated script, counted from 1, given the number that draws it, on which
/// the first 31 lines do not turn.
pub fn generate(x: u64, k: u64) -> Line
    requires { 1 ≤ k }
    ensures line { result ≡ line_at x k }
    ensures listed { IsListed result }
{
    match head_line(k - 1) {
        Some(line) => line,
        None => line_drawn(x),
    }
}

/// The lines of a generated script, in order: the head, then the body.
#[derive(Drop)]
pub struct GeneratedLines {
    /// How many lines have been given.
    given: u64,
    /// How many lines of the body are left.
    left: u64,
    /// The number of the sequence that drew the newest line of the body, at first the seed.
    number: u64,
}

/// Makes the script that `count` and `seed` generate: 31 lines, which are always the same, and
/// `count` lines that the numbers after `seed` draw.
#[tactic(auto, unfolding(crate::specs::Generated::generated, crate::specs::Lines::lines_left))]
pub fn generated_lines(count: u64, seed: u64) -> GeneratedLines
    ensures lines { lines_left result ≡ generated count seed }
    ensures listed { All IsListed (lines_left result) }
{
    GeneratedLines {
        given: 0,
        left: count,
        number: seed,
    }
}

impl Iterator for GeneratedLines {
    ghost use Rattle.std.specs.Iterator.{YieldsFirst, item_count};
    ghost use Rattle.aia_generate.specs.Lines.{lines_left};

    type Item = Line;

    ghost next_gives = { YieldsFirst lines_left };

    ghost remaining = { item_count lines_left };

    fn next(&mut self) -> Option<Line> {
        if self.given >= HEAD_LINES {
            self.left = self.left.checked_sub(1)?;
            self.number = lcg(self.number);
        }
        self.given = self.given.saturating_add(1);
        Some(generate(self.number, self.given))
    }
}
