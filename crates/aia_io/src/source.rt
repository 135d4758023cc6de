//! Where the bytes of a run come from.
ghost use Rattle.std.specs.Prelude.{ℕ, ◌<◌, length};
ghost use Rattle.aia_io.specs.Ends.{Supply};

/// What one [`Source::read`] answers.
#[derive(Clone, Copy, Debug, PartialEq, Eq)]
pub enum Read {
    /// So many bytes, at least one, are now at the front of the buffer.
    Got(usize),

    /// The source answered that no byte is left; where it tells its bytes, none is.
    End,

    /// The source failed; where it tells its bytes, none was taken.
    Failed,
}

/// Bytes in order, given a piece at a time.
pub trait Source {
    ghost use Rattle.aia_io.specs.Ends.{Reads, ReadHasCause};

    // The bytes still to come, where the source tells them, how many it gave, and how often it
    // answered that none is left.
    ghost supply: { Self → Supply };

    // How often the source itself failed. It never falls, and stays at the greatest u64.
    ghost faults: { Self → ℕ };

    /// Puts the next bytes at the front of `buf`, which isn't empty.
    ///
    /// `Got(n)`: the first n of the bytes that were left, with n between 1 and `buf.len()`; the
    /// count of bytes given rose by n (or to its last value). `End`: none was left, and the count
    /// of ends rose (or stood at its last value). `Failed`: the count of faults rose (or stood at
    /// its last value), the count of bytes given is as before, and none was taken, so a later call
    /// may go on. Which bytes these are, and that none is left or taken, this says of a source that
    /// tells its bytes.
    fn read(&mut self, buf: &mut [u8]) -> Read
        requires { 0 < length buf.old }
        ensures bytes { Reads (supply self.old) (supply self.new) buf.new result }
        ensures cause { ReadHasCause (faults self.old) (faults self.new) result };
}
