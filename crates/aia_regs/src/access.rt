ghost use Rattle.std.specs.Prelude.{◌≡◌};
ghost use Rattle.aia_regs.specs.Operations.{is_writing, written};

/// The privilege level of an access.
#[derive(Clone, Copy, Debug, PartialEq, Eq)]
pub enum Level {
    /// Machine level: `miselect`, `mireg`, `mtopei`.
    Machine,
    /// Supervisor level of the host: `siselect`, `sireg`, `stopei`.
    Host,
    /// Supervisor level of a guest (VS): the same, `stopi`, `sip` and `sie`.
    Guest,
}

/// A CSR of one privilege level, by its part in the AIA.
///
/// AIA 1.0, IMSIC, and Interrupts for Virtual Machines (VS Level).
#[derive(Clone, Copy, Debug, PartialEq, Eq)]
pub enum Csr {
    /// `miselect` or `siselect`: the select number.
    Select,
    /// `mireg` or `sireg`: the register that the select number names.
    Reg,
    /// `mtopei` or `stopei`: the identity on top; a write claims it.
    Topei,
    /// `stopi`: the major interrupt on top.
    Topi,
    /// `sip`: the major interrupts pending.
    Sip,
    /// `sie`: the major interrupts enabled.
    Sie,
}

/// A CSR instruction, with its operand.
#[derive(Clone, Copy, Debug, PartialEq, Eq)]
pub enum Op {
    /// `csrr`: reads.
    Read,
    /// `csrrw`: writes the operand.
    Write(u64),
    /// `csrrs`: sets the operand's ones; it writes also where the operand is 0.
    Set(u64),
    /// `csrrc`: clears the operand's ones; it writes also where the operand is 0.
    Clear(u64),
}

impl Op {
    /// Tells whether the instruction writes: `csrr` does not, the others do whatever their operand.
    pub fn is_writing(self) -> bool
        ensures { result ≡ is_writing self }
    {
        !matches!(self, Op::Read)
    }

    /// Gives the number that the instruction writes where the register reads `old`; of `csrr`,
    /// which writes nothing, `old`.
    pub fn written(self, old: u64) -> u64
        ensures { result ≡ written self old }
    {
        match self {
            Op::Read => old,
            Op::Write(value) => value,
            Op::Set(ones) => old | ones,
            Op::Clear(ones) => old & !ones,
        }
    }
}
