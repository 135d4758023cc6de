//! The head of each generated script: a machine, its VMs, and all their interrupt files made ready.

ghost use Rattle.std.specs.Prelude.{◌≡◌, ◌<◌, Some, slice_get};
ghost use Rattle.aia_model.specs.declared.line.Line.{Line};
ghost use Rattle.aia_regs.specs.declared.access.Csr.{Csr};
ghost use Rattle.aia_regs.specs.declared.access.Op.{Op};
ghost use Rattle.aia_generate.specs.Generated.{made_ready, guest_ready, host_ready, head_lines};

use aia_model::{Line, Want};
use aia_regs::{Csr, Op};

/// How many lines the head has.
pub const HEAD_LINES: u64 = 31;

/// Gives the CSR that an access of the four that make a file ready writes, and how: `eie0` is given
/// all its identities, then `eidelivery` 1.
fn ready_access(place: u64) -> (Csr, Op)
    requires { place < 4 }
    ensures { (line : Csr → Op → Line)
        → slice_get (made_ready (line Csr.Select) (line Csr.Reg)) place
        ≡ Some (line result.0 result.1) }
{
    match place {
        0 => (Csr::Select, Op::Write(0xc0)),
        1 => (Csr::Reg, Op::Write(0xffff_ffff_ffff_fffe)),
        2 => (Csr::Select, Op::Write(0x70)),
        _ => (Csr::Reg, Op::Write(1)),
    }
}

/// Gives a line of the five by which a virtual hart arrives, at the hart that has its VM's number,
/// and makes its file ready.
fn guest_line(vm: u64, vcpu: u64, place: u64) -> Line
    requires { place < 5 }
    ensures { slice_get (guest_ready vm vcpu) place ≡ Some result }
{
    if place == 0 {
        return Line::Move {
            vm,
            vcpu,
            want: Want::Arrive(vm),
        };
    }
    let (csr, op) = ready_access(place - 1);
    Line::GuestCsr { vm, vcpu, csr, op }
}

/// Gives a line of the four by which a hart makes its supervisor file ready.
fn host_line(hart: u64, place: u64) -> Line
    requires { place < 4 }
    ensures { slice_get (host_ready hart) place ≡ Some result }
{
    let (csr, op) = ready_access(place);
    Line::HostCsr { hart, csr, op }
}

/// Gives the line of the head with so many lines before it; `None` past the head.
pub fn head_line(place: u64) -> Option<Line>
    ensures { result ≡ slice_get head_lines place }
{
    // Each of four virtual harts has five lines, then each of two harts four.
    match place {
        0 => Some(Line::Machine {
            harts: 2,
            guests: 2,
            n: 63,
            sources: 8,
        }),
        1 | 2 => Some(Line::Vm {
            vcpus: 2,
            mask: 0x38,
            hart: place - 1,
        }),
        3..=22 => Some(guest_line((place - 3) / 10, (place - 3) / 5 % 2, (place - 3) % 5)),
        23..=30 => Some(host_line((place - 23) / 4, (place - 23) % 4)),
        _ => None,
    }
}
