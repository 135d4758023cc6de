//! The lines that pieces of a source's bytes are cut into.

ghost use Rattle.std.specs.Prelude.{◌≡◌, ◌+◌, ◌≤◌, ◌++◌, length, take, position, nat_eq};
ghost use Rattle.arrayvec.specs.ArrayVec.{array_vec_len};

use aia_model::limits::LINE_BYTES;
use arrayvec::ArrayVec;
use memchr::memchr;

/// The byte that ends a line.
const LF: u8 = b'\n';

/// One byte more than the longest line has, so that a longer one shows.
pub const LINE: usize = LINE_BYTES + 1;

/// Keeps a part of a line, as far as there is room.
pub fn keep(line: &mut ArrayVec<u8, LINE>, part: &[u8])
    ensures { line.new.items ≡ take LINE (line.old.items ++ part.now) }
{
    let room = line.remaining_capacity();
    extend(line, &part[..part.len().min(room)]);
}

/// Appends bytes for which there is room.
fn extend(line: &mut ArrayVec<u8, LINE>, bytes: &[u8])
    requires { array_vec_len line.old + length bytes.now ≤ LINE }
    ensures { line.new.items ≡ line.old.items ++ bytes.now }
{
    let _ = line.try_extend_from_slice(bytes);
}

/// Tells where the first line of `bytes` ends, `None` where none does.
pub fn line_end(bytes: &[u8]) -> Option<usize>
    ensures { result ≡ position (λ b. nat_eq b LF) bytes.now }
{
    memchr(LF, bytes)
}
