//! Parts of images: as they are printed, and as a line that loads one has them.

ghost use Rattle.std.specs.Prelude.{◌≡◌, ◌+◌, ◌≤◌, ◌∷◌, ◌++◌};
ghost use Rattle.arrayvec.specs.ArrayVec.{array_vec_len};
ghost use Rattle.aia_model.specs.AnswerText.{part_text};
ghost use Rattle.aia_model.specs.Forms.{part, part_shape};
ghost use Rattle.aia_model.specs.Reading.{read};
ghost use Rattle.aia_script.specs.Cursor.{left};

use crate::number::{flag_at, n32_at, number_at};
use crate::pieces::{push_decimal, push_decimal32, push_register, push_text};
use crate::rows::{print_by_row, print_field, read_by_row, read_field};
use crate::words::{Words, after_name, at_end};
use aia_model::Part;
use arrayvec::ArrayVec;

/// Hands the rows of the parts to a macro, after its arguments.
macro_rules! parts {
    ($take:ident $args:tt) => {
        $take! { $args
            b"image"
                [version: Decimal32, n: Decimal32, delivery: Bit, threshold: Decimal32,
                    select: Hex16]
                (Part::Image { version, n, delivery, threshold, select })
            b"majors" [injected: Hex16, enabled: Hex16] (Part::Majors { injected, enabled })
            b"prio" [hviprio: Hex16, hvictl: Hex16] (Part::Prio { hviprio, hvictl })
            b"word" [w: Decimal, pending: Hex16, enable: Hex16]
                (Part::Word { w, pending, enable })
        }
    };
}

/// Appends a part of an image, at most 63 bytes.
pub fn push_part<const N: usize>(out: &mut ArrayVec<u8, N>, part: Part)
    requires { array_vec_len out.old + 63 ≤ N }
    ensures text { out.new.items ≡ out.old.items ++ part_text part }
    ensures length { array_vec_len out.new ≤ array_vec_len out.old + 63 }
{
    parts!(print_by_row(part, out,))
}

/// Reads the part of an image that words spell; `None` where they spell none.
pub fn part_at(words: &Words<'_>) -> Option<Part>
    ensures { result ≡ read part_shape part (left words.now) }
{
    let text = words.rest()?;
    parts!(read_by_row(text));
    None
}
