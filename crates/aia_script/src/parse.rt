//! A text is read.

ghost use Rattle.std.specs.Prelude.{◌≡◌, ◌↔◌, IsTrue};
ghost use Rattle.aia_model.specs.Text.{is_skipped};
ghost use Rattle.aia_model.specs.Forms.{Spells, IsListed};
ghost use Rattle.aia_model.specs.Reading.{reading};

use crate::forms::line_at;
use crate::words::all_words;
use aia_model::limits::LINE_BYTES;
use aia_model::{Line, Parsed};

/// Tells whether a text of a script, or of a plan, is skipped: it is empty, or a comment, which
/// begins with `#` and has at most [`LINE_BYTES`] bytes.
pub fn is_skipped(text: &[u8]) -> bool
    ensures { result ≡ is_skipped text.now }
{
    match text {
        [] => true,
        [first, ..] => text.len() <= LINE_BYTES && *first == b'#',
    }
}

/// Reads a text of a script, which is cut into texts at LF.
///
/// `Line(line)` says that the text spells `line`, and no other line; its CSR, if it has one, is one
/// that lines of its form name. `Skip` says that it is empty, or a comment: it begins with `#` and
/// has at most [`LINE_BYTES`] bytes. `Bad` says that it is neither: it spells no line, as every
/// text that is longer. Nothing is allocated.
#[inline(always)]
pub fn parse_line(text: &[u8]) -> Parsed
    ensures line { (line : Line) → (result ≡ Parsed.Line line) ↔ Spells text.now line }
    ensures skip { (result ≡ Parsed.Skip) ↔ IsTrue (is_skipped text.now) }
    ensures bad { (result ≡ Parsed.Bad)
        ↔ ((¬ IsTrue (is_skipped text.now)) × ((line : Line) → ¬ Spells text.now line)) }
    ensures listed { (line : Line) → result ≡ Parsed.Line line → IsListed line }
    ensures reading { result ≡ reading text.now }
{
    read(text)
}

/// Reads a text, word by word.
#[tactic(auto, unfolding(aia_model::specs::Reading::reading))]
#[inline(always)]
fn read(text: &[u8]) -> Parsed
    ensures { result ≡ reading text.now }
{
    if is_skipped(text) {
        return Parsed::Skip;
    }
    if text.len() > LINE_BYTES {
        return Parsed::Bad;
    }
    match line_at(&all_words(text)) {
        Some(line) => Parsed::Line(line),
        None => Parsed::Bad,
    }
}
