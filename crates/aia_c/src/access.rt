//! CSR instructions by numbers.

ghost use Rattle.std.specs.Prelude.{◌≡◌, ℕ, false, [], Some, IfSome};
ghost use Rattle.aia_regs.specs.declared.access.Op.{Op};
ghost use Rattle.aia_model.specs.Forms.{IsListed};
ghost use Rattle.aia_model.specs.Refusal.{makes_machine};
ghost use Rattle.aia_c.specs.Access.{op_of, hart_csr, hart_line, hart_access, guest_csr, guest_access};

use aia_model::Line;
use aia_regs::{Csr, Level, Op};

/// Gives the instruction of a number, `None` where it names none.
#[inline(always)]
fn op_of(funct: u32, operand: u64) -> Option<Op>
    ensures { result ≡ op_of funct operand }
{
    match funct {
        0 => Some(Op::Read),
        1 => Some(Op::Write(operand)),
        2 => Some(Op::Set(operand)),
        3 => Some(Op::Clear(operand)),
        _ => None,
    }
}

/// Gives the CSR of a number and its level, `None` where a hart has no such CSR.
#[inline(always)]
fn hart_csr(csr: u32) -> Option<(Level, Csr)>
    ensures csr { result ≡ hart_csr csr }
    ensures listed { IfSome result (λ at. (hart : ℕ) (op : Op)
        → IfSome (hart_line hart (Some at) (Some op)) IsListed) }
{
    match csr {
        0x350 => Some((Level::Machine, Csr::Select)),
        0x351 => Some((Level::Machine, Csr::Reg)),
        0x35c => Some((Level::Machine, Csr::Topei)),
        0x150 => Some((Level::Host, Csr::Select)),
        0x151 => Some((Level::Host, Csr::Reg)),
        0x15c => Some((Level::Host, Csr::Topei)),
        _ => None,
    }
}

/// Gives the line of an instruction of a hart, `None` where a number names none.
#[inline(always)]
pub fn hart_access(hart: u64, csr: u32, funct: u32, operand: u64) -> Option<Line>
    ensures line { result ≡ hart_access hart csr funct operand }
    ensures listed { IfSome result IsListed }
    ensures plain { IfSome result (λ line. makes_machine [] line ≡ false) }
{
    let (level, csr) = hart_csr(csr)?;
    let op = op_of(funct, operand)?;
    Some(match level {
        Level::Machine => Line::MachineCsr { hart, csr, op },
        Level::Host | Level::Guest => Line::HostCsr { hart, csr, op },
    })
}

/// Gives the CSR of a number, `None` where a virtual hart has no such CSR.
#[inline(always)]
fn guest_csr(csr: u32) -> Option<Csr>
    ensures { result ≡ guest_csr csr }
{
    match csr {
        0x150 => Some(Csr::Select),
        0x151 => Some(Csr::Reg),
        0x15c => Some(Csr::Topei),
        0xdb0 => Some(Csr::Topi),
        0x144 => Some(Csr::Sip),
        0x104 => Some(Csr::Sie),
        _ => None,
    }
}

/// Gives the line of an instruction of a virtual hart, `None` where a number names none.
#[inline(always)]
pub fn guest_access(vm: u64, vcpu: u64, csr: u32, funct: u32, operand: u64) -> Option<Line>
    ensures line { result ≡ guest_access vm vcpu csr funct operand }
    ensures listed { IfSome result IsListed }
    ensures plain { IfSome result (λ line. makes_machine [] line ≡ false) }
{
    let csr = guest_csr(csr)?;
    let op = op_of(funct, operand)?;
    Some(Line::GuestCsr { vm, vcpu, csr, op })
}
