use crate::KeptNumbers;
use aia_pool::FileLease;

/// What a step makes of a move in one of its phases.
#[derive(Drop)]
pub enum Turn<S, T> {
    /// It stays in the phase.
    Stay(S),
    /// It goes on to the next one.
    On(T),
}

/// What a step makes of a plan.
#[derive(Drop)]
pub enum Next<P> {
    /// It goes on.
    Again(P),
    /// It is at its end.
    Finished(Outcome),
}

/// The phase of a move once its G-stage record is in force.
#[derive(Drop)]
pub enum Closed<A, N> {
    /// Its next step aims a passed source.
    Aim(A),
    /// All are aimed: it is past the phase of aims.
    Aimed(N),
}

/// What a move gives back at its end.
#[derive(Drop)]
pub enum Outcome {
    /// The virtual hart is parked: the file that it left, and what the hypervisor keeps of it.
    Left(FileLease, KeptNumbers),
    /// It is resident in this file.
    Arrived(FileLease),
    /// It left the first file, and is resident in the second.
    Shifted(FileLease, FileLease),
}
