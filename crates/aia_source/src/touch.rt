/// What a store to a register does to a bit of each source that it names.
///
/// AIA 1.0, APLIC, "Memory-mapped control region for an interrupt domain".
#[derive(Clone, Copy, Debug, PartialEq, Eq)]
pub enum Touch {
    /// `setip` and its kin.
    SetPending,
    /// `in_clrip` and `clripnum`.
    ClearPending,
    /// `setie` and `setienum`.
    SetEnable,
    /// `clrie` and `clrienum`.
    ClearEnable,
}
