//! A file of plans, as far as its texts are read.

ghost use Rattle.std.specs.Prelude.{◌≡◌, ◌+◌, ◌-◌, ◌^◌, ◌<◌, [], IfOk, OnOk, None, nat_eq, position};
ghost use Rattle.aia_io.specs.Lines.{NoEnd};
ghost use Rattle.plans_text.specs.PlanFile as file;
ghost use Rattle.plans_text.specs.PlanFile.{AreInFile, read_of};

use crate::draft::Draft;
use crate::line::{PlanLine, Reading};
use crate::outcome::{Answered, FileOutcome};
use crate::parse::parse_line;
use crate::words::find_byte;
use std::alloc::{AllocError, Global};
use std::mem::swap;

/// A file of plans, as far as its texts are read.
#[derive(Drop)]
pub(crate) struct PlanFile {
    draft: Draft,

    /// How many lines were read.
    lines: usize,

    /// What is answered of the plans before the one that is being read.
    answers: Vec<u8>,

    /// What came of them.
    outcome: FileOutcome,
}

impl PlanFile {
    /// Makes a file of which no text was read.
    pub(crate) fn new(alloc: Global) -> PlanFile
        ensures read { read_of result ≡ file.none_read }
        ensures inside { AreInFile result.draft }
    {
        PlanFile {
            draft: Draft::new(alloc),
            lines: 0,
            answers: Vec::new(alloc),
            outcome: FileOutcome::NoPlan,
        }
    }

    /// Ends the plan that is being read, and begins one. `Err`: there is no memory for its answer.
    fn begin(&mut self, alloc: Global) -> Result<(), AllocError>
        requires { AreInFile self.old.draft }
        ensures read { OnOk result (read_of self.new ≡ file.plan_begun (read_of self.old)) }
        ensures lines { self.new.lines ≡ self.old.lines }
        ensures inside { AreInFile self.new.draft }
    {
        let came = self.draft.push_answer(alloc, &mut self.answers)?;
        self.outcome = self.outcome.worse(came);
        self.draft = Draft::begun(alloc);
        Ok(())
    }

    /// Reads what a text is read as. `Err`: there is no memory for it.
    fn add(&mut self, alloc: Global, text: &[u8], reading: Reading) -> Result<(), AllocError>
        requires { AreInFile self.old.draft }
        ensures read { OnOk result
            (read_of self.new ≡ file.as_read text.now reading (read_of self.old)) }
        ensures lines { self.new.lines ≡ self.old.lines }
        ensures inside { AreInFile self.new.draft }
    {
        match reading {
            Reading::Skip => Ok(()),
            Reading::Bad => {
                if !self.draft.is_bad() {
                    self.draft.mark_bad(self.lines);
                }
                Ok(())
            }
            Reading::BadPlan => {
                self.begin(alloc)?;
                self.draft.mark_bad(self.lines);
                Ok(())
            }
            Reading::Line(PlanLine::Plan) => self.begin(alloc),
            Reading::Line(line) => {
                if self.draft.is_bad() {
                    Ok(())
                } else {
                    self.draft.add(alloc, self.lines, text, line)
                }
            }
        }
    }

    /// Reads one text more. `Err`: there is no memory for it.
    pub(crate) fn add_text(&mut self, alloc: Global, text: &[u8]) -> Result<(), AllocError>
        requires inside { AreInFile self.old.draft }
        requires room { self.old.lines < 2 ^ 64 - 1 }
        ensures read { OnOk result
            (read_of self.new ≡ file.with_text (read_of self.old) text.now) }
        ensures lines { OnOk result (self.new.lines ≡ self.old.lines + 1) }
        ensures inside { AreInFile self.new.draft }
    {
        self.lines += 1;
        self.add(alloc, text, parse_line(text))
    }

    /// Reads what stands after the last LF, where anything does. `Err`: there is no memory for it.
    pub(crate) fn add_last(&mut self, alloc: Global, text: &[u8]) -> Result<(), AllocError>
        requires inside { AreInFile self.old.draft }
        requires room { self.old.lines < 2 ^ 64 - 1 }
        ensures read { OnOk result (NoEnd text.now
            → read_of self.new ≡ file.with_texts (read_of self.old) (file.texts_of text.now)) }
        ensures inside { AreInFile self.new.draft }
    {
        if text.is_empty() {
            Ok(())
        } else {
            self.add_text(alloc, text)
        }
    }

    /// Gives the answers that wait, so that none does.
    pub(crate) fn take_answers(&mut self, alloc: Global) -> Vec<u8>
        ensures answers { result.items ≡ self.old.answers.items }
        ensures read { self.new ≡ record self.old { answers = self.new.answers } }
        ensures empty { self.new.answers.items ≡ [] }
    {
        let mut answers = Vec::new(alloc);
        swap(&mut answers, &mut self.answers);
        answers
    }

    /// Ends the file, and gives all that is answered, and what came of all plans. `Err`: there is
    /// no memory for it.
    pub(crate) fn finish(self, alloc: Global) -> Result<Answered, AllocError>
        requires { AreInFile self.draft }
        ensures text { IfOk result (λ out. out.text.items ≡ file.all_answers (read_of self)) }
        ensures outcome { IfOk result (λ out. out.outcome ≡ file.all_outcomes (read_of self)) }
    {
        let mut text = self.answers;
        let came = self.draft.push_answer(alloc, &mut text)?;
        let outcome = self.outcome.worse(came);
        Ok(Answered { text, outcome })
    }
}

/// Gives what is answered of the bytes of a file: a line for each plan, and one more where it is
/// refused; and what came of its plans. `Err`: there is no memory for it.
///
/// A plan that is read takes memory for its steps, at most 4096, and their lines, at most 128 bytes
/// each; one that has ended for its answer alone.
pub fn answers(alloc: Global, bytes: &[u8]) -> Result<Answered, AllocError>
    ensures text { IfOk result (λ out. out.text.items ≡ file.answers bytes.now) }
    ensures outcome { IfOk result (λ out. out.outcome ≡ file.outcome bytes.now) }
{
    let mut file = PlanFile::new(alloc);
    let mut rest = bytes;
    while let Some(end) = find_byte(rest, b'\n') {
        file.add_text(alloc, &rest[..end])?;
        rest = &rest[end + 1..];
    }
    file.add_last(alloc, rest)?;
    file.finish(alloc)
}
