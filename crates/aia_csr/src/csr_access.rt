ghost use Rattle.std.specs.Prelude.{◌≡◌};
ghost use Rattle.aia_csr.specs.CsrAccess.{csr_access, IsInTable, ReachesUsable, register_access};

use aia_regs::{Csr, FileReg, Level, Op, file_reg};

/// What an access reaches, or the exception that it raises.
#[derive(Clone, Copy, Debug, PartialEq, Eq)]
pub enum CsrAccess {
    /// The select number.
    Select,
    /// This register of the interrupt file.
    File(FileReg),
    /// The identity on top of the file.
    Top,
    /// The major interrupt on top, which can only be read.
    Topi,
    /// The pending majors.
    Sip,
    /// The enabled majors.
    Sie,
    /// An illegal-instruction exception.
    Illegal,
    /// A virtual-instruction exception.
    Virtual,
}

/// Decides what the access reaches, or which exception it raises, given the select number and
/// whether hvictl's VTI is 1, which only a guest's `sip` and `sie` ask for. At machine level and at
/// the host's supervisor level the CSR is `Select`, `Reg` or `Topei`.
///
/// AIA 1.0, IMSIC, and Interrupts for Virtual Machines (VS Level).
#[inline(always)]
pub fn decide(level: Level, csr: Csr, op: Op, select: u64, vti: bool) -> CsrAccess
    requires { IsInTable level csr }
    ensures table { result ≡ csr_access level csr op select vti }
    ensures usable { ReachesUsable result }
{
    match csr {
        Csr::Select => CsrAccess::Select,
        Csr::Topei => CsrAccess::Top,
        Csr::Reg => register(level, file_reg(select)),
        Csr::Topi if op.is_writing() => CsrAccess::Illegal,
        Csr::Topi => CsrAccess::Topi,
        Csr::Sip | Csr::Sie if vti => CsrAccess::Virtual,
        Csr::Sip => CsrAccess::Sip,
        Csr::Sie => CsrAccess::Sie,
    }
}

/// Decides what an access by the select number reaches.
fn register(level: Level, reg: FileReg) -> CsrAccess
    ensures { result ≡ register_access level reg }
{
    match (reg, level) {
        (FileReg::Odd | FileReg::Outside, Level::Guest) => CsrAccess::Virtual,
        (FileReg::Odd | FileReg::Outside, Level::Machine | Level::Host) => CsrAccess::Illegal,
        _ => CsrAccess::File(reg),
    }
}
