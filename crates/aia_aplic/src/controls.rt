//! The delivery controls of the harts in a domain, by their harts: each function here changes one
//! of them at most.

ghost use Rattle.std.specs.Prelude.{◌≡◌, ◌<◌, ◌≤◌, length, All, IfOk, Bool};
ghost use Rattle.aia_regs.specs.Top.{topi_value};
ghost use Rattle.aia_domain.specs.InterruptSource.{EachSource};
ghost use Rattle.aia_domain.specs.Domain.{with_sources};
ghost use Rattle.aia_direct.specs.Idc.{new_idc, control_read, top_shown, claimed_top, signals_hart};
ghost use Rattle.aia_aplic_values.specs.Controls.{EachControl, control_after, control_at, claimed_at};

use aia_direct::{Idc, claimi, signal, topi};
use aia_domain::Domain;
use aia_regs::DomainReg;
use std::alloc::{AllocError, Global};

/// Makes the controls of so many harts, as a machine begins.
pub(crate) fn new_controls(alloc: Global, harts: u32) -> Result<Vec<Idc>, AllocError>
    ensures length { IfOk result (λ controls. length controls.items ≡ harts) }
    ensures each { IfOk result (λ controls. All (λ c. c ≡ new_idc) controls.items) }
{
    let mut controls = Vec::new(alloc);
    for _hart in 0..harts {
        controls.push(Idc::new())?;
    }
    Ok(controls)
}

/// Gives what a register of a control reads, of a hart that is there.
pub(crate) fn load_control(controls: &[Idc], hart: u32, reg: DomainReg) -> u32
    requires { hart < length controls.now }
    ensures { result ≡ control_read (control_at controls.now hart) reg }
{
    controls[hart as usize].load(reg)
}

/// Writes a register, where it is one of a hart's control, and the hart is there.
pub(crate) fn store_control(controls: &mut [Idc], reg: DomainReg, value: u32)
    ensures { EachControl controls.old controls.new (control_after reg value) }
{
    match reg {
        DomainReg::IDelivery(hart) | DomainReg::IForce(hart) | DomainReg::IThreshold(hart) => {
            if (hart as usize) < controls.len() {
                controls[hart as usize].store(reg, value);
            }
        }
        _ => {}
    }
}

/// Gives what `topi` of a hart that is there reads.
pub(crate) fn topi_of(controls: &[Idc], domain: &Domain, hart: u32) -> u32
    requires { hart < length controls.now }
    ensures { result ≡ topi_value (top_shown (control_at controls.now hart) domain.now hart) }
{
    topi(&controls[hart as usize], domain, hart)
}

/// Loads `claimi` of a hart that is there.
pub(crate) fn claim(controls: &mut [Idc], domain: &mut Domain, hart: u32) -> u32
    requires { hart < length controls.now }
    ensures value { result ≡ topi_value (top_shown (control_at controls.old hart) domain.old hart) }
    ensures controls { EachControl controls.old controls.new (claimed_at domain.old hart) }
    ensures sources { EachSource domain.old.sources domain.new.sources
        (claimed_top (top_shown (control_at controls.old hart) domain.old hart)) }
    ensures domain { domain.new ≡ with_sources domain.old domain.new.sources }
{
    claimi(&mut controls[hart as usize], domain, hart)
}

/// Tells whether a hart that is there is signalled.
pub(crate) fn signal_of(controls: &[Idc], domain: &Domain, hart: u32) -> bool
    requires { hart < length controls.now }
    ensures { result ≡ signals_hart (control_at controls.now hart) domain.now hart }
{
    signal(&controls[hart as usize], domain, hart)
}
