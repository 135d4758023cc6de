//! Where the bytes of a run go.
ghost use Rattle.std.specs.Prelude.{ℕ, ◌<◌, List, Option, length};

/// What one [`Sink::write`] answers.
#[derive(Clone, Copy, Debug, PartialEq, Eq)]
pub enum Write {
    /// So many of the bytes offered, at least one, were taken, from the front.
    Took(usize),

    /// The sink failed; where it tells its bytes, it took none.
    Failed,
}

/// Takes bytes in order, a piece at a time.
pub trait Sink {
    ghost use Rattle.aia_io.specs.Ends.{Writes, WriteHasCause};

    // The bytes taken so far, where the sink tells them.
    ghost taken: { Self → Option (List ℕ) };

    // How often the sink itself failed. It never falls, and stays at the greatest u64.
    ghost faults: { Self → ℕ };

    /// Takes bytes from the front of `bytes`, which isn't empty.
    ///
    /// Where the sink tells its bytes: at `Took(n)`, with n between 1 and `bytes.len()`, the first
    /// n now stand after those taken before, and at `Failed` they are as before. At `Failed` the
    /// count of faults rose (or stood at its last value).
    fn write(&mut self, bytes: &[u8]) -> Write
        requires { 0 < length bytes.now }
        ensures bytes { Writes (taken self.old) (taken self.new) bytes.now result }
        ensures cause { WriteHasCause (faults self.old) (faults self.new) result };
}
