ghost use Rattle.std.specs.Prelude.{◌≡◌, ◌≤◌, ◌&&◌, not, is_none};
ghost use Rattle.aia_regs.specs.declared.limits.TheConstants.{FILE_WORDS};
ghost use Rattle.aia_vcpu.specs.Phases.{phase_begins};
ghost use Rattle.aia_move.specs.PlanViews.{phase_at};
ghost use Rattle.aia_move_values.specs.Plan.{past_phase, is_last};

use aia_vcpu::{End, before_entry, plan_steps, word_steps};

/// The phase up to the fence of the entry, and with it.
#[derive(Drop)]
pub struct First;

/// The phase of the G-stage record: it is written, and put in force.
#[derive(Drop)]
pub struct Closing;

/// The phase of aims: each passed source is aimed at the new place.
#[derive(Drop)]
pub struct Aim;

/// The phase of the pending set: each word is taken, and put.
#[derive(Drop)]
pub struct Drain;

/// The phase of the enabled set: each word is taken, and put.
#[derive(Drop)]
pub struct Enable;

/// The phase of the looks, of a leave alone: each word of both sets is read in memory.
#[derive(Drop)]
pub struct Look;

/// The last phase: the numbers that are left, and the notice of a leave.
#[derive(Drop)]
pub struct Last;

/// The phase that a plan is in.
#[derive(Clone, Copy, Debug, PartialEq, Eq)]
pub enum PlanPhase {
    First,
    Closing,
    Aim,
    Drain,
    Enable,
    Look,
    Last,
}

impl PlanPhase {
    /// Tells whether its steps aim passed sources.
    pub(crate) fn aims(self) -> bool
        ensures { result ≡ is_none (phase_at self) }
    {
        matches!(self, PlanPhase::Aim)
    }

    /// Tells whether the next step is a plan's last one, by whether its phase goes on after it.
    pub(crate) fn ends(self, stays: bool) -> bool
        ensures { result ≡ (not stays && is_last (phase_at self)) }
    {
        !stays && matches!(self, PlanPhase::Last)
    }

    /// Tells how many steps come before the phase that follows, in files of `words` words. The
    /// phase of aims has none of its own.
    pub(crate) fn end(self, from: End, to: End, words: u32) -> u32
        requires { words ≤ FILE_WORDS }
        ensures { result ≡ phase_begins from to words (past_phase (phase_at self)) }
    {
        let entry = before_entry(from, to);
        match self {
            PlanPhase::First => entry + 2,
            PlanPhase::Closing | PlanPhase::Aim => entry + 4,
            PlanPhase::Drain => entry + 4 + 2 * words,
            PlanPhase::Enable => entry + 4 + 4 * words,
            PlanPhase::Look => entry + 4 + word_steps(to, words),
            PlanPhase::Last => plan_steps(from, to, words),
        }
    }
}
