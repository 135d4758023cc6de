use aia_fabric_values::Found;
use aia_regs::limits::PASSES;
use arrayvec::ArrayVec;

/// A wired source that is passed to a virtual hart, as a plan of its moves has it. Profile: passes.
#[derive(Clone, Copy, Debug, Default, PartialEq, Eq)]
pub struct Pass {
    /// The source.
    pub source: u32,
    /// The identity that it has in the virtual hart's interrupt file, up to `IDENTITIES`.
    pub identity: u32,
    /// The number of the pass, below `PASSES`, by which it has its identity at the notice hart.
    pub number: u32,
}

/// Who is moved: a virtual hart that is there, with what is passed to it.
#[derive(Debug, Drop, PartialEq, Eq)]
pub struct Who {
    /// The virtual hart.
    pub found: Found,
    /// The wired sources that are passed to it, in the order of passing.
    pub passes: ArrayVec<Pass, PASSES>,
}

/// What the hypervisor keeps of the interrupt file of a virtual hart whose interrupts rest in
/// memory: its numbers, which its slot has no room for.
#[derive(Clone, Copy, Debug, PartialEq, Eq)]
pub struct KeptNumbers {
    /// eidelivery, 0 or 1.
    pub delivery: u64,
    /// eithreshold, up to the greatest identity.
    pub threshold: u64,
}
