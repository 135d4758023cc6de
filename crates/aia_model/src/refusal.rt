/// Why a line is refused, for what it names or reaches: one form for each word.
#[derive(Clone, Copy, Debug, PartialEq, Eq)]
pub enum Refusal {
    /// `range`: a number names nothing, or is past its limit.
    Range,
    /// `full`: there is no room for a VM of so many virtual harts, for one more store in flight, or
    /// for one more passed source.
    Full,
    /// `busy`: the virtual hart is being moved.
    Busy,
    /// `home`: the virtual hart is resident already.
    Home,
    /// `entered`: the virtual hart runs from memory already.
    Entered,
    /// `parked`: the virtual hart's interrupts rest in memory, whether it runs from there or not.
    Parked,
    /// `nofile`: no guest file of the hart is free.
    NoFile,
    /// `passed`: the source is passed to a virtual hart already.
    Passed,
    /// `unready`: the source is not one that MSIs to guests may be made of.
    Unready,
    /// `idle`: the virtual hart is not being moved, or does not run from memory.
    Idle,
    /// `away`: the virtual hart does not run: it is parked, or is being moved; or it runs from
    /// memory, where it has no such CSR.
    Away,
    /// `illegal`: the access raises an illegal-instruction exception.
    Illegal,
    /// `virtual`: the access raises a virtual-instruction exception.
    Virtual,
    /// `fault`: the address is in no place that is there, or isn't aligned.
    Fault,
    /// `guarded`: the address is a guest's, or in memory, or the store would redirect the MSIs of
    /// passed sources.
    Guarded,
    /// `other`: the address is no MSI address of the VM.
    Other,
    /// `notvalid`: the entry for the file that the address names is not valid.
    NotValid,
    /// `gfault`: the VM has no virtual hart whose file the store is for.
    GFault,
}
