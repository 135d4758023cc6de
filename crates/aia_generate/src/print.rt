//! The summary is printed.

ghost use Rattle.std.specs.Prelude.{◌≡◌, ◌+◌, ◌^◌, ◌<◌, ◌≤◌, List, [], ◌++◌, length};
ghost use Rattle.arrayvec.specs.ArrayVec.{array_vec_len};
ghost use Rattle.aia_model.specs.declared.line.Line.{Line};
ghost use Rattle.aia_model.specs.Answer.{after_lines};
ghost use Rattle.aia_model.specs.Notice.{notices_sent};
ghost use Rattle.aia_generate.specs.declared.limits.TheConstants.{SUMMARY_BYTES};
ghost use Rattle.aia_generate.specs.Summary.{summary_line, summary_text, summary_of};
ghost use Rattle.aia_generate.specs.Tally.{Tallies};

use crate::limits::SUMMARY_BYTES;
use crate::tally::Tally;
use arrayvec::ArrayVec;
use itoa::Buffer;

/// Appends a text, for which there is room.
fn push_text(out: &mut ArrayVec<u8, SUMMARY_BYTES>, text: &[u8])
    requires { array_vec_len out.old + length text.now ≤ SUMMARY_BYTES }
    ensures text { out.new.items ≡ out.old.items ++ text.now }
    ensures length { array_vec_len out.new ≡ array_vec_len out.old + length text.now }
{
    // There is room, so this never fails.
    let _ = out.try_extend_from_slice(text);
}

/// Appends a line of the summary: a word, a space, a number in decimal, and LF.
fn push_line(out: &mut ArrayVec<u8, SUMMARY_BYTES>, word: &[u8], number: u64)
    requires { array_vec_len out.old + length word.now + 22 ≤ SUMMARY_BYTES }
    ensures text { out.new.items ≡ out.old.items ++ summary_line word.now number }
    ensures length { array_vec_len out.new ≤ array_vec_len out.old + length word.now + 22 }
{
    let mut buffer = Buffer::new();
    push_text(out, word);
    out.push(b' ');
    push_text(out, buffer.format(number).as_bytes());
    out.push(b'\n');
}

/// Prints the summary of a script's run into `out`, which is empty, given how many notices were
/// sent: four lines, at most [`SUMMARY_BYTES`] bytes in all.
pub fn summary(tally: &Tally, notices: u64, out: &mut ArrayVec<u8, SUMMARY_BYTES>)
    requires { out.old.items ≡ [] }
    ensures text { out.new.items
        ≡ summary_text tally.now.lines tally.now.claims notices tally.now.sum }
    ensures of_lines { (lines : List Line) → Tallies tally.now lines → length lines < 2 ^ 64
        → notices ≡ notices_sent (after_lines [] lines) → out.new.items ≡ summary_of lines }
    ensures short { array_vec_len out.new ≤ SUMMARY_BYTES }
{
    push_line(out, b"lines", tally.lines());
    push_line(out, b"claims", tally.claims());
    push_line(out, b"notices", notices);
    push_line(out, b"sum", tally.sum());
}
