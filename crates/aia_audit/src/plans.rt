//! The plans of the hypervisor's core, as steps.

ghost use Rattle.std.specs.Prelude.{◌≡◌, ◌≤◌, ◌+◌, ◌*◌, length, [], ◌∷◌, ◌++◌};
ghost use Rattle.std.specs.List.{All};
ghost use Rattle.arrayvec.specs.ArrayVec.{array_vec_len};
ghost use Rattle.aia_plan.specs.Plan.{IsWidth, IsInside, each_word, all_words, core_plan};
ghost use Rattle.aia_plan.specs.declared.step.Step.TheVariants.{TakeP, PutP, TakeE, PutE, Look};
ghost use Rattle.aia_audit.specs.declared.limits.TheConstants.{PLAN_STEPS};
ghost use Rattle.aia_regs.specs.declared.limits.TheConstants.{FILE_WORDS};

use crate::limits::PLAN_STEPS;
use aia_plan::{Kind, Step};
use arrayvec::ArrayVec;

/// Appends steps.
fn push_steps(out: &mut ArrayVec<Step, PLAN_STEPS>, steps: &[Step])
    requires { array_vec_len out.old + length steps.now ≤ PLAN_STEPS }
    ensures plan { out.new.items ≡ out.old.items ++ steps.now }
    ensures length { array_vec_len out.new ≡ array_vec_len out.old + length steps.now }
{
    let _ = out.try_extend_from_slice(steps);
}

/// Appends the steps that take each word of the pending set and put it.
fn push_pending(out: &mut ArrayVec<Step, PLAN_STEPS>, words: u32)
    requires { array_vec_len out.old + 2 * words ≤ PLAN_STEPS }
    ensures plan { out.new.items
        ≡ out.old.items ++ each_word (λ w. TakeP w ∷ PutP w ∷ []) 0 words }
    ensures length { array_vec_len out.new ≡ array_vec_len out.old + 2 * words }
{
    for word in 0..words {
        push_steps(out, &[Step::TakeP(word), Step::PutP(word)]);
    }
}

/// Appends the steps that take each word of the enabled set and put it.
fn push_enables(out: &mut ArrayVec<Step, PLAN_STEPS>, words: u32)
    requires { array_vec_len out.old + 2 * words ≤ PLAN_STEPS }
    ensures plan { out.new.items
        ≡ out.old.items ++ each_word (λ w. TakeE w ∷ PutE w ∷ []) 0 words }
    ensures length { array_vec_len out.new ≡ array_vec_len out.old + 2 * words }
{
    for word in 0..words {
        push_steps(out, &[Step::TakeE(word), Step::PutE(word)]);
    }
}

/// Appends the steps that look at each word.
fn push_looks(out: &mut ArrayVec<Step, PLAN_STEPS>, words: u32)
    requires { array_vec_len out.old + words ≤ PLAN_STEPS }
    ensures plan { out.new.items ≡ out.old.items ++ each_word (λ w. Look w ∷ []) 0 words }
    ensures length { array_vec_len out.new ≡ array_vec_len out.old + words }
{
    for word in 0..words {
        push_steps(out, &[Step::Look(word)]);
    }
}

/// Appends the steps that move each word of both sets.
fn push_words(out: &mut ArrayVec<Step, PLAN_STEPS>, words: u32)
    requires { array_vec_len out.old + 4 * words ≤ PLAN_STEPS }
    ensures plan { out.new.items ≡ out.old.items ++ all_words words }
    ensures length { array_vec_len out.new ≡ array_vec_len out.old + 4 * words }
{
    push_pending(out, words);
    push_enables(out, words);
}

/// Appends the plan of a leave to `out`, which is empty.
fn push_leave(out: &mut ArrayVec<Step, PLAN_STEPS>, words: u32)
    requires few { words ≤ FILE_WORDS }
    requires empty { out.old.items ≡ [] }
    ensures { out.new.items ≡ core_plan Kind.Leave words }
{
    push_steps(out, &[Step::Quiet, Step::Word1, Step::Word0, Step::Fence]);
    push_steps(out, &[Step::Unmap, Step::GFence]);
    push_words(out, words);
    push_looks(out, words);
    push_steps(out, &[Step::TakeT, Step::Post]);
}

/// Appends the plan of an arrival to `out`, which is empty.
fn push_arrive(out: &mut ArrayVec<Step, PLAN_STEPS>, words: u32)
    requires few { words ≤ FILE_WORDS }
    requires empty { out.old.items ≡ [] }
    ensures { out.new.items ≡ core_plan Kind.Arrive words }
{
    push_steps(out, &[Step::Word0, Step::Fence, Step::Map, Step::GFence]);
    push_words(out, words);
    push_steps(out, &[Step::PutT, Step::Wake]);
}

/// Appends the plan of a shift to `out`, which is empty.
fn push_shift(out: &mut ArrayVec<Step, PLAN_STEPS>, words: u32)
    requires few { words ≤ FILE_WORDS }
    requires empty { out.old.items ≡ [] }
    ensures { out.new.items ≡ core_plan Kind.Shift words }
{
    push_steps(out, &[Step::Quiet, Step::Word0, Step::Fence]);
    push_steps(out, &[Step::Remap, Step::GFence]);
    push_words(out, words);
    push_steps(out, &[Step::TakeT, Step::PutT, Step::Wake]);
}

/// Appends the plan of a move of a kind to `out`, which is empty.
fn push_plan(kind: Kind, words: u32, out: &mut ArrayVec<Step, PLAN_STEPS>)
    requires few { words ≤ FILE_WORDS }
    requires empty { out.old.items ≡ [] }
    ensures { out.new.items ≡ core_plan kind words }
{
    match kind {
        Kind::Leave => push_leave(out, words),
        Kind::Arrive => push_arrive(out, words),
        Kind::Shift => push_shift(out, words),
    }
}

/// Appends the plan that the hypervisor's core makes for a move of a kind to `out`, which is empty:
/// for files whose sets have `words` words of 64 identities, which is 1, 2, 4, 8, 16 or 32. Nothing
/// is allocated. Profile.
pub fn names(kind: Kind, words: u32, out: &mut ArrayVec<Step, PLAN_STEPS>)
    requires width { IsWidth words }
    requires empty { out.old.items ≡ [] }
    ensures plan { out.new.items ≡ core_plan kind words }
    ensures inside { All (IsInside words) out.new.items }
{
    push_plan(kind, words, out);
}
