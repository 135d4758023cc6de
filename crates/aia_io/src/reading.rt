//! Pieces of a source's bytes.

ghost use Rattle.std.specs.Prelude.{◌<◌, ◌≤◌, length};
ghost use Rattle.aia_io.specs.Ends.{ReadHasCause, ReadsFront};
ghost use Rattle.aia_io.specs.Pieces.{IsWithin, read_of};
ghost use Rattle.aia_io.specs.Taken.{ReadsOn};

use crate::limits::{PIECE_BYTES, SOURCE_BYTES};
use crate::source::{Read, Source};

/// What one [`read_piece`] answers.
#[derive(Clone, Copy, Debug, PartialEq, Eq)]
pub enum Piece {
    /// So many bytes, at least one, are now at the front of the buffer.
    Got(usize),

    /// The source answered that no byte is left.
    End,

    /// The source failed.
    Failed,

    /// [`SOURCE_BYTES`] were taken before, and one byte more is there: it is taken too.
    TooLong,
}

/// Reads the next piece of a source of which a run took `taken` bytes so far, at most
/// [`SOURCE_BYTES`], into the front of `piece`, which has room for [`PIECE_BYTES`].
pub fn read_piece<S: Source>(source: &mut S, piece: &mut [u8], taken: usize) -> Piece
    requires few { taken ≤ SOURCE_BYTES }
    requires room { PIECE_BYTES ≤ length piece.old }
    ensures bytes { ReadsFront PIECE_BYTES (S.supply source.old) (S.supply source.new) piece.new
        (read_of result) }
    ensures taken { ReadsOn (S.supply source.old) (S.supply source.new) piece.new
        (read_of result) }
    ensures cause { ReadHasCause (S.faults source.old) (S.faults source.new) (read_of result) }
    ensures limit { IsWithin taken result }
{
    let most = (SOURCE_BYTES - taken).clamp(1, PIECE_BYTES);
    match read_front(source, piece, most) {
        Read::Got(_) if taken == SOURCE_BYTES => Piece::TooLong,
        Read::Got(n) => Piece::Got(n),
        Read::End => Piece::End,
        Read::Failed => Piece::Failed,
    }
}

/// Reads at most `most` bytes into the front of `piece`.
fn read_front<S: Source>(source: &mut S, piece: &mut [u8], most: usize) -> Read
    requires some { 0 < most }
    requires room { most ≤ length piece.old }
    ensures bytes { ReadsFront most (S.supply source.old) (S.supply source.new) piece.new result }
    ensures taken { ReadsOn (S.supply source.old) (S.supply source.new) piece.new result }
    ensures cause { ReadHasCause (S.faults source.old) (S.faults source.new) result }
{
    source.read(&mut piece[..most])
}
