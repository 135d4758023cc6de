/// The rules that a plan has to keep. The first five decide whether it is safe.
#[derive(Clone, Copy, Debug, PartialEq, Eq)]
pub enum Rule {
    /// Each producer's route leads to the new place, in force, and each pending word is taken
    /// after that, or while the producer is paused.
    Routes,

    /// What may hold something is not overwritten, the enables are taken, and nothing is left in
    /// the hand.
    Words,

    /// What is taken is joined only to a word in which nothing is left over.
    Blank,

    /// Threshold and delivery come to where they have to be, as they were.
    Numbers,

    /// The old place is given back once nobody stores there, and not accessed after that, nor is a
    /// producer resumed then that would store there.
    Freeing,

    /// In memory the host is told of each word once all of it is there, with what is heeded, and it
    /// stays there.
    Notice,
}
