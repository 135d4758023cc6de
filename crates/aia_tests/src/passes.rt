//! Wired sources that are passed to virtual harts, by the core itself.

ghost use Rattle.std.specs.Prelude.{◌≡◌, true, IfOk};
ghost use Rattle.std.specs.Int.{is_in_range};
ghost use Rattle.aia_hyp_values.specs.Stands.{CoreStands};
ghost use Rattle.aia_move_values.specs.Targets.{AimsOne};
ghost use Rattle.aia_tests.specs.PassHistories.{made, one_ready};

use crate::same;
use aia_hyp::{Core, Refusal};
use aia_move::Targets;
use aia_regs::limits::FIRST_PASS_IDENTITY;
use std::alloc::{AllocError, Global};
use std::test::Fail;

/// The sources of a machine of one hart, of which MSIs to guests may be made of the first alone.
#[derive(Drop)]
struct FirstSource {
    target: u64,
}

impl Targets for FirstSource {
    ghost map = { λ t. one_ready t.target };

    ghost aimed = { λ old source target new.
        AimsOne (one_ready old.target) source target (one_ready new.target) };

    fn ready(&self, source: u32) -> bool {
        source == 1
    }

    #[tactic(auto, using(crate::proofs::PassFacts::aims_it, crate::proofs::PassFacts::aims_none))]
    fn aim(&mut self, source: u32, hart: u32, guest: u32, identity: u32) {
        if source == 1 {
            let file = u64::from(hart) * 0x4_0000 + u64::from(guest) * 0x1000;
            self.target = file + u64::from(identity);
        }
    }

    ghost aims_one = { λ old new source target aims. aims };
}

/// Makes the core of a machine with these sources, and a VM of one virtual hart.
#[tactic(auto, using(crate::proofs::PassFacts::made_stands))]
fn made_core(alloc: Global) -> Result<Core, AllocError>
    ensures { IfOk result (λ core. CoreStands core made) }
{
    let mut core = Core::new(alloc, 1, 1, 63)?;
    let _made = core.vm(1, 8, 0);
    Ok(core)
}

/// Passes source 1 or 2 to a virtual hart of it, as an identity, and tells what that answers and
/// the target of source 1 then.
#[tactic(auto, using(crate::proofs::PassFacts::may_pass, crate::proofs::PassFacts::one_hart))]
fn pass_one(
    alloc: Global,
    source: u32,
    vm: u64,
    vcpu: u64,
    identity: u64,
) -> Result<(Result<(), Refusal>, u64), AllocError>
    requires { is_in_range 1 2 source ≡ true }
{
    let mut core = made_core(alloc)?;
    let mut targets = FirstSource { target: 0 };
    let given = core.pass(source, vm, vcpu, identity, &mut targets);
    let aimed = targets.target;
    drop(core);
    Ok((given, aimed))
}

/// A source is passed to a parked virtual hart: it is aimed at the notice hart, with the identity
/// of the first pass. Where it is refused, it is not aimed.
#[test]
fn a_source_is_passed_to_a_parked_virtual_hart(rt: HostRuntime) -> Result<(), Fail> {
    let accepted = (Ok(()), u64::from(FIRST_PASS_IDENTITY));
    let range = (Err(Refusal::Range), 0);
    same!(rt; pass_one(rt.alloc(), 1, 0, 0, 5)?, accepted);
    same!(rt; pass_one(rt.alloc(), 1, 0, 0, 63)?, accepted);
    same!(rt; pass_one(rt.alloc(), 1, 1, 0, 5)?, range);
    same!(rt; pass_one(rt.alloc(), 1, 0, 1, 5)?, range);
    same!(rt; pass_one(rt.alloc(), 1, 0, 0, 0)?, range);
    same!(rt; pass_one(rt.alloc(), 1, 0, 0, 64)?, range);
    same!(rt; pass_one(rt.alloc(), 2, 0, 0, 64)?, range);
    same!(rt; pass_one(rt.alloc(), 2, 0, 0, 5)?, (Err(Refusal::Unready), 0));
    Ok(())
}
