//! What the definitions of this crate mean, as laws: each function does nothing, and its clauses
//! are what was proved.

ghost use Rattle.std.specs.Prelude.{◌≡◌, ℕ, ◌+◌, ◌*◌, ◌/◌, ◌^◌, ◌<◌, ◌≤◌, List, [], length, Some, slice_get, codes};
ghost use Rattle.aia_model.specs.declared.line.Line.{Line};
ghost use Rattle.aia_model.specs.declared.want.Want.{Want};
ghost use Rattle.aia_model.specs.Answer.{after_lines};
ghost use Rattle.aia_model.specs.Notice.{notices_sent};
ghost use Rattle.aia_generate.specs.Generated.{next_number, line_drawn, line_at, generated};
ghost use Rattle.aia_generate.specs.Sequence.{drawing_number};
ghost use Rattle.aia_generate.specs.Summary.{summary};
ghost use Rattle.aia_generate.specs.declared.head.TheConstants.{HEAD_LINES};

/// A generated script has the lines of its head and those of its body, which are each drawn by a
/// number of its own.
pub fn the_generator_draws_its_lines()
    ensures line { (count seed k : ℕ) → k < HEAD_LINES + count → slice_get (generated count seed) k
        ≡ Some (line_at (drawing_number seed (k + 1)) (k + 1)) }
    ensures length { (count seed : ℕ) → length (generated count seed) ≡ HEAD_LINES + count }
{}

/// The first numbers after two seeds, as what lines are drawn by, and the first lines of the body
/// that they draw.
pub fn worked_numbers()
    ensures seed_0 { next_number 0 / 2 ^ 33 ≡ 167951807 }
    ensures line_0 { line_drawn (next_number 0) ≡ Line.Step 0 0 }
    ensures seed_1 { next_number 1 / 2 ^ 33 ≡ 908834774 }
    ensures line_1 { line_drawn (next_number 1) ≡ Line.Begin 1 0 Want.Leave }
{}

/// Lines send no more than 200 notices for each line, taken together; so 64 bits can count those of
/// any script that is generated.
pub fn few_notices_are_sent()
    ensures { (lines : List Line) → notices_sent (after_lines [] lines) ≤ 200 * length lines }
{}

/// The summaries of five generated scripts.
pub fn worked_summaries()
    ensures gen_0_7 { summary 0 7 ≡ codes "lines 31\nclaims 0\nnotices 0\nsum 0\n" }
    ensures gen_1_0 { summary 1 0 ≡ codes "lines 32\nclaims 0\nnotices 0\nsum 0\n" }
    ensures gen_1_1 { summary 1 1 ≡ codes "lines 32\nclaims 0\nnotices 0\nsum 0\n" }
    ensures gen_200_1 { summary 200 1 ≡ codes "lines 231\nclaims 3\nnotices 9\nsum 7\n" }
    ensures gen_1000_7 { summary 1000 7 ≡ codes "lines 1031\nclaims 48\nnotices 92\nsum 274\n" }
{}
