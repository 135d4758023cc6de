//! The body of a generated script: the sequence of numbers, and the line that each of them draws.

ghost use Rattle.std.specs.Prelude.{◌≡◌, ◌<◌};
ghost use Rattle.aia_generate.specs.Generated.{next_number, line_of_form, line_drawn};

use aia_model::{Line, Want};
use aia_regs::address_map::{PAGE, PATTERN};
use aia_regs::{Csr, Op};

/// The bytes from the MSI address of one virtual hart of a generated VM to the next one's: the
/// lowest one of the mask is at bit 3.
pub const OWN_STRIDE: u64 = 8 * PAGE;

/// Gives the number after `x` in the sequence: one turn of a linear congruential generator, modulo
/// 2^64.
pub fn lcg(x: u64) -> u64
    ensures { result ≡ next_number x }
{
    x.wrapping_mul(6364136223846793005)
        .wrapping_add(1442695040888963407)
}

/// Gives the line of a form, 0 to 9: of virtual hart `vcpu`, 0 or 1, of a VM, of a hart, with an
/// identity.
fn line_of_form(form: u64, vm: u64, vcpu: u64, hart: u64, identity: u32) -> Line
    requires { vcpu < 2 }
    ensures { result ≡ line_of_form form vm vcpu hart identity }
{
    match form {
        0 | 1 => Line::Msi {
            vm,
            addr: PATTERN * PAGE + vcpu * OWN_STRIDE,
            value: identity,
        },
        2 => Line::GuestCsr {
            vm,
            vcpu,
            csr: Csr::Topei,
            op: Op::Write(0),
        },
        3 => Line::Ipi {
            vm,
            vcpu,
            to: 1 - vcpu,
            value: identity,
        },
        4 => Line::Begin {
            vm,
            vcpu,
            want: Want::Leave,
        },
        5 => Line::Begin {
            vm,
            vcpu,
            want: Want::Arrive(hart),
        },
        6..=8 => Line::Step { vm, vcpu },
        _ => Line::HostCsr {
            hart,
            csr: Csr::Topei,
            op: Op::Write(0),
        },
    }
}

/// Gives the line that a number of the sequence draws, by its bits from 33 on.
pub fn line_drawn(x: u64) -> Line
    ensures { result ≡ line_drawn x }
{
    let r = x >> 33;
    line_of_form(
        r % 10,
        r / 10 % 2,
        r / 20 % 2,
        r / 40 % 2,
        (r / 80 % 64) as u32,
    )
}
