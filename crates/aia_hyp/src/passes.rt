ghost use Rattle.std.specs.Prelude.{◌≡◌, ◌<◌, ◌≤◌, ◌++◌, [], ◌∷◌, nat_eq, length, slice_index_or};
ghost use Rattle.aia_regs.specs.declared.limits.TheConstants.{PASSES};
ghost use Rattle.aia_word.specs.Sets.{least_of};
ghost use Rattle.aia_vcpu.specs.Vms.{vcpu_of};
ghost use Rattle.aia_model.specs.Passes.{no_pass};
ghost use Rattle.aia_hyp_values.specs.Passes.{pass_shown, own_passes};

use aia_hyp_values::Passed;
use aia_move::Pass;
use aia_regs::limits::PASSES;
use arrayvec::ArrayVec;
use std::marker::Model;

/// The passes, in order: so they are numbered, from 0 on.
#[derive(Drop)]
pub struct Passes {
    kept: ArrayVec<Passed, PASSES>,
}

impl Model for Passes {
    ghost use Rattle.std.specs.Prelude.{List, map};
    ghost use Rattle.aia_model.specs.Passes.{PassedSource};
    ghost use Rattle.aia_hyp_values.specs.Passes.{pass_shown};

    ghost Value = { List PassedSource };

    ghost view = { λ p. map pass_shown p.kept.items };
}

impl Passes {
    /// Makes the list of none.
    pub fn new() -> Passes
        ensures { result ≡ [] }
    {
        Passes {
            kept: ArrayVec::new(),
        }
    }

    /// Tells how many there are.
    pub fn count(&self) -> usize
        ensures value { result ≡ length self.now }
        ensures few { result ≤ PASSES }
    {
        self.kept.len()
    }

    /// Recalls how many there are at most, for a caller's proof. It does nothing.
    pub fn recall_count(&self)
        ensures { length self.now ≤ PASSES }
    {
        self.count();
    }

    /// Gives the pass of a number below their count.
    pub fn at(&self, number: u32) -> Passed
        requires { number < length self.now }
        ensures { pass_shown result ≡ slice_index_or self.now number no_pass }
    {
        self.kept[number as usize]
    }

    /// Finds the number of the pass of a source. `None` exactly where it is not passed.
    pub fn number_of(&self, source: u32) -> Option<u32>
        ensures { result ≡ least_of
            (λ p. nat_eq (slice_index_or self.now p no_pass).source source) 0 (length self.now) }
    {
        for number in 0..self.count() as u32 {
            if self.at(number).source == source {
                return Some(number);
            }
        }
        None
    }

    /// Puts one after the others, where there is room.
    pub fn push(&mut self, pass: Passed)
        requires { length self.old < PASSES }
        ensures { self.new ≡ self.old ++ pass_shown pass ∷ [] }
    {
        self.kept.push(pass);
    }

    /// Gives those to a virtual hart, in order, with their numbers.
    pub fn to(&self, vm: u32, vcpu: u32) -> ArrayVec<Pass, PASSES>
        ensures { result.items ≡ own_passes 0 (vcpu_of vm vcpu) self.now }
    {
        let mut own = ArrayVec::new();
        for k in 0..self.kept.len() {
            put_own(&mut own, vm, vcpu, k as u32, self.kept[k]);
        }
        own
    }
}

/// Puts pass k after others where it is to a virtual hart.
fn put_own(own: &mut ArrayVec<Pass, PASSES>, vm: u32, vcpu: u32, k: u32, pass: Passed)
    requires { length own.old.items < PASSES }
    ensures { own.new.items
        ≡ own.old.items ++ own_passes k (vcpu_of vm vcpu) (pass_shown pass ∷ []) }
{
    if pass.vm == vm && pass.vcpu == vcpu {
        own.push(Pass {
            source: pass.source,
            identity: pass.identity,
            number: k,
        });
    }
}
