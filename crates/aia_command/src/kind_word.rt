//! The word of a kind of move.

ghost use Rattle.std.specs.Prelude.{◌≡◌};
ghost use Rattle.aia_command.specs.CommandLine.{kind_named};

use aia_plan::Kind;
use std::str::FromStr;

/// A kind of move, read from its word.
#[derive(Clone, Copy)]
pub(crate) struct KindWord {
    pub(crate) kind: Kind,
}

/// The word names no kind of move.
#[derive(Clone, Copy)]
pub(crate) struct NoKind;

impl FromStr for KindWord {
    ghost use Rattle.aia_command.specs.KindWords.{NamesKind};

    type Err = NoKind;

    ghost from_str_gives = { NamesKind };

    fn from_str(word: &str) -> Result<KindWord, NoKind> {
        let kind = kind_named(word).ok_or(NoKind)?;
        Ok(KindWord { kind })
    }
}

/// Tells which kind of move a word names, `None` where it names none.
fn kind_named(word: &str) -> Option<Kind>
    ensures { result ≡ kind_named word.now }
{
    match word {
        "leave" => Some(Kind::Leave),
        "arrive" => Some(Kind::Arrive),
        "shift" => Some(Kind::Shift),
        _ => None,
    }
}
