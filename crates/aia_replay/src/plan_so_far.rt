//! A plan, as far as its texts are read.

ghost use Rattle.std.specs.Prelude.{◌≡◌, ◌+◌, ◌≤◌, ℕ, [], ◌∷◌, ◌++◌, length, Option, Some, None, IfSome};
ghost use Rattle.std.specs.List.{All};
ghost use Rattle.arrayvec.specs.ArrayVec.{array_vec_len};
ghost use Rattle.aia_model.specs.AnswerText.{decimal_text};
ghost use Rattle.aia_plan.specs.Plan.{IsInside, IsWidth};
ghost use Rattle.aia_audit.specs.PlanText.{read_word, with_step, with_text};
ghost use Rattle.aia_replay.specs.Plans.{AreInside, plan_read};

use aia_audit::limits::PLAN_STEPS;
use aia_audit::{Kind, Step, Verdict, audit};
use aia_script::{is_skipped, parse_step};
use arrayvec::ArrayVec;
use itoa::Buffer;

/// How many bytes an answer has at most, its LF too.
const ANSWER: usize = 32;

/// The steps of a plan so far, of files whose sets have `words` words of 64 identities; or which of
/// the texts that are not skipped is the first bad one, counted from 1.
#[derive(Drop)]
pub struct PlanSoFar {
    words: u32,
    steps: ArrayVec<Step, PLAN_STEPS>,
    bad: Option<u32>,
}

impl PlanSoFar {
    /// Makes a plan of which no text was read.
    pub fn new(words: u32) -> PlanSoFar
        ensures words { result.words ≡ words }
        ensures steps { result.steps.items ≡ [] }
        ensures bad { result.bad ≡ None }
    {
        PlanSoFar {
            words,
            steps: ArrayVec::new(),
            bad: None,
        }
    }

    /// Reads one text more.
    pub fn add_text(&mut self, text: &[u8])
        requires { AreInside self.old }
        ensures read { plan_read self.new
            ≡ with_text self.old.words (plan_read self.old) text.now }
        ensures inside { AreInside self.new }
        ensures words { self.new.words ≡ self.old.words }
    {
        if self.bad.is_some() || is_skipped(text) {
            return;
        }
        let step = parse_step(text, self.words);
        self.add(step);
    }

    /// Adds the step that a text spells, where it spells one and there is room.
    fn add(&mut self, step: Option<Step>)
        requires good { self.old.bad ≡ None }
        requires inside { AreInside self.old }
        requires step { IfSome step (λ step. IsInside self.old.words step) }
        ensures read { plan_read self.new ≡ with_step self.old.steps.items step }
        ensures inside { AreInside self.new }
        ensures words { self.new.words ≡ self.old.words }
    {
        let place = self.steps.len() as u32 + 1;
        if let Some(step) = step {
            if self.steps.try_push(step).is_ok() {
                return;
            }
        }
        self.bad = Some(place);
    }

    /// Prints the answer, with its LF: the verdict on the plan of a move of a kind, or which text
    /// is bad.
    pub fn answer(&self, kind: Kind) -> ArrayVec<u8, ANSWER>
        requires width { IsWidth self.now.words }
        requires inside { AreInside self.now }
        ensures { result.items ≡ read_word kind self.now.words (plan_read self.now) ++ 10 ∷ [] }
    {
        let mut text = ArrayVec::new();
        match self.bad {
            Some(place) => push_counted(&mut text, b"bad ", place),
            None => match audit(kind, self.words, self.steps.as_slice()) {
                Verdict::Accepted => push_text(&mut text, b"accepted"),
                Verdict::Refused(part) => push_counted(&mut text, b"refused ", part),
            },
        }
        text.push(b'\n');
        text
    }
}

/// Appends a text, for which there is room.
fn push_text(out: &mut ArrayVec<u8, ANSWER>, text: &[u8])
    requires { array_vec_len out.old + length text.now ≤ ANSWER }
    ensures text { out.new.items ≡ out.old.items ++ text.now }
    ensures length { array_vec_len out.new ≡ array_vec_len out.old + length text.now }
{
    // There is room, so this never fails.
    let _ = out.try_extend_from_slice(text);
}

/// Appends a text and a number in decimal.
fn push_counted(out: &mut ArrayVec<u8, ANSWER>, text: &[u8], number: u32)
    requires { array_vec_len out.old + length text.now + 20 ≤ ANSWER }
    ensures text { out.new.items ≡ out.old.items ++ (text.now ++ decimal_text number) }
    ensures length { array_vec_len out.new ≤ array_vec_len out.old + length text.now + 20 }
{
    let mut buffer = Buffer::new();
    push_text(out, text);
    push_text(out, buffer.format(number as u64).as_bytes());
}
