/// An interrupt file of a machine, by the hart and, of a guest file, its number from 1 on.
#[derive(Clone, Copy, Debug, PartialEq, Eq)]
pub enum Spot {
    /// The machine-level file of a hart.
    MachineFile(u32),
    /// The supervisor file of a hart.
    SupervisorFile(u32),
    /// A guest file of a hart.
    GuestFile(u32, u32),
    /// No file.
    Nowhere,
}
