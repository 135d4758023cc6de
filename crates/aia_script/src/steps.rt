//! Steps of plans: what step a text spells.

ghost use Rattle.std.specs.Prelude.{◌≡◌, ◌<◌, ℕ, map, Option, IfSome};
ghost use Rattle.std.specs.Option.{option_map};
ghost use Rattle.aia_model.specs.Text.{below};
ghost use Rattle.aia_model.specs.Grammar.{row_of};
ghost use Rattle.aia_plan.specs.Plan.{IsInside};
ghost use Rattle.aia_script.specs.Cursor.{left, first_word, after_first};
ghost use Rattle.aia_script.specs.StepForm.{form_of};
ghost use Rattle.aia_script.specs.StepText.{step_forms, word_step, step_after, step_at, step_of};

use crate::number::number_at;
use crate::words::{Words, after_name, all_words, at_end};
use aia_model::limits::LINE_BYTES;
use aia_plan::Step;

/// Gives the names of steps, each with its step: where a step has the number of a word, that of
/// word 0.
fn step_names() -> &'static [(&'static [u8], Step)]
    ensures { map (λ row. (row.0.now, form_of row.1)) result.now ≡ step_forms }
{
    &[
        (b"quiet", Step::Quiet),
        (b"word1", Step::Word1),
        (b"word0", Step::Word0),
        (b"fence", Step::Fence),
        (b"map", Step::Map),
        (b"unmap", Step::Unmap),
        (b"remap", Step::Remap),
        (b"gfence", Step::GFence),
        (b"takep", Step::TakeP(0)),
        (b"putp", Step::PutP(0)),
        (b"takee", Step::TakeE(0)),
        (b"pute", Step::PutE(0)),
        (b"look", Step::Look(0)),
        (b"taket", Step::TakeT),
        (b"putt", Step::PutT),
        (b"post", Step::Post),
        (b"wake", Step::Wake),
    ]
}

/// Gives the step that the first word of a text names, of word 0 where it has the number of a word,
/// and the words after it; `None` where it names none.
fn named(text: &[u8]) -> Option<(Step, Words<'_>)>
    ensures step { option_map (λ found. form_of found.0) result
        ≡ row_of step_forms (first_word text.now) }
    ensures rest { IfSome result (λ found. left found.1 ≡ after_first text.now) }
{
    for (name, step) in step_names() {
        if let Some(words) = after_name(text, name) {
            return Some((*step, words));
        }
    }
    None
}

/// Reads the number of one of `count` words, with which the text ends; `None` where it spells none.
#[tactic(auto, unfolding(crate::specs::StepText::word_step))]
fn word_number(words: &mut Words<'_>, count: u32) -> Option<u32>
    ensures step { (step : ℕ → Step)
        → option_map step result ≡ word_step count step (left words.old) }
    ensures inside { IfSome result (λ w. w < count) }
{
    let number = number_at(words)?;
    let number = u32::try_from(number).ok()?;
    if number < count {
        at_end(words, number)
    } else {
        None
    }
}

/// Reads the step that a name and the words after it spell, `named` being the step of that name.
fn step_after(named: Step, words: &mut Words<'_>, count: u32) -> Option<Step>
    ensures step { result ≡ step_after count (form_of named) (left words.old) }
    ensures inside { IfSome result (λ step. IsInside count step) }
{
    match named {
        Step::TakeP(_) => Some(Step::TakeP(word_number(words, count)?)),
        Step::PutP(_) => Some(Step::PutP(word_number(words, count)?)),
        Step::TakeE(_) => Some(Step::TakeE(word_number(words, count)?)),
        Step::PutE(_) => Some(Step::PutE(word_number(words, count)?)),
        Step::Look(_) => Some(Step::Look(word_number(words, count)?)),
        step => at_end(words, step),
    }
}

/// Reads the step that words spell; `None` where they spell none.
#[tactic(auto, unfolding(crate::specs::StepText::step_at))]
fn step_at(words: &Words<'_>, count: u32) -> Option<Step>
    ensures step { result ≡ step_at count (left words.now) }
    ensures inside { IfSome result (λ step. IsInside count step) }
{
    let (step, mut rest) = named(words.rest()?)?;
    step_after(step, &mut rest, count)
}

/// Reads a step of a plan, of files whose sets have `words` words of 64 identities.
///
/// A step is a name, or a name, a single space and the number of a word, 0 to `words` - 1, spelled
/// as numbers of scripts are: in decimal, or `0x` and 1 to 16 hexadecimal digits. `None` says that
/// the text spells no step: so does every text that is empty, a comment, or longer than
/// [`LINE_BYTES`] bytes. Nothing is allocated.
#[tactic(auto, unfolding(crate::specs::StepText::step_of))]
pub fn parse_step(text: &[u8], words: u32) -> Option<Step>
    ensures step { result ≡ step_of words text.now }
    ensures inside { IfSome result (λ step. IsInside words step) }
{
    if text.len() > LINE_BYTES {
        return None;
    }
    step_at(&all_words(text), words)
}
