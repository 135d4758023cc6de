/// A wired source that is passed to a virtual hart, as the core keeps it.
#[derive(Clone, Copy, Debug, Default, PartialEq, Eq)]
pub struct Passed {
    /// The source, from 1 on.
    pub source: u32,
    /// The virtual hart's VM.
    pub vm: u32,
    /// Its number in the VM.
    pub vcpu: u32,
    /// The identity for which the source asks there.
    pub identity: u32,
}
