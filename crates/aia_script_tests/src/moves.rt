//! A move, and lines that stand between its steps.

use crate::replays::is_same;
use crate::talk::Talk;
use std::alloc::{AllocError, Global};
use std::io;

/// A line, and its answer.
pub(crate) type Pair<'a> = (&'a str, &'a str);

/// A move of virtual hart 0 of VM 0: how many steps it has, what comes before them, and what there
/// is to see after them.
#[derive(Drop)]
pub(crate) struct Move<'a> {
    pub name: &'a str,
    pub steps: u32,
    pub before: Vec<Pair<'a>>,
    pub looks: Vec<Pair<'a>>,
}

/// Lines that stand between two steps of a move.
#[derive(Clone, Copy)]
pub(crate) struct Between<'a> {
    /// The lines, apart by `;`.
    pub lines: &'a str,
    /// Their answers and those of the looks after the move, apart by spaces. A number is of so many
    /// looks that have their usual answers, as have all that are left out.
    pub answers: &'a str,
}

impl<'a> Move<'a> {
    /// Makes a move with no steps.
    pub(crate) fn new(alloc: Global, name: &'a str) -> Move<'a> {
        Move {
            name,
            steps: 0,
            before: Vec::new(alloc),
            looks: Vec::new(alloc),
        }
    }

    /// Puts lines after so many steps, and looks at all that is answered.
    pub(crate) fn replay_at(
        &self,
        rt: &HostRuntime,
        between: Between<'a>,
        gap: u32,
    ) -> io::Result<bool> {
        let mut talk = Talk::new(rt.alloc());
        self.say_at(&mut talk, between, gap)?;
        let (name, lines) = (self.name, between.lines);
        let name = format!(in rt.alloc(); "{name}, after {gap} steps: {lines}")?;
        is_same(rt, name.as_str(), &talk.script, &talk.answers)
    }

    /// Puts lines that all have the one answer before each step, and looks at all that is answered.
    pub(crate) fn replay_everywhere(
        &self,
        rt: &HostRuntime,
        between: Between<'a>,
    ) -> io::Result<bool> {
        let mut talk = Talk::new(rt.alloc());
        self.say_everywhere(&mut talk, between)?;
        let (name, lines) = (self.name, between.lines);
        let name = format!(in rt.alloc(); "{name}, before each step: {lines}")?;
        is_same(rt, name.as_str(), &talk.script, &talk.answers)
    }

    /// Puts the move at the end, with lines after so many steps.
    fn say_at(&self, talk: &mut Talk, between: Between<'a>, gap: u32) -> Result<(), AllocError> {
        say_pairs(talk, &self.before)?;
        self.say_steps(talk, 0, gap)?;
        let mut answers = between.answers.split(' ');
        for line in between.lines.split(';') {
            talk.say(line, answers.next().unwrap_or(""))?;
        }
        self.say_steps(talk, gap, self.steps)?;
        self.say_looks(talk, between)
    }

    /// Puts the move at the end, with lines that all have the one answer before each step.
    fn say_everywhere(&self, talk: &mut Talk, between: Between<'a>) -> Result<(), AllocError> {
        say_pairs(talk, &self.before)?;
        for gap in 0..self.steps {
            for line in between.lines.split(';') {
                talk.say(line, between.answers)?;
            }
            self.say_steps(talk, gap, gap.saturating_add(1))?;
        }
        say_pairs(talk, &self.looks)
    }

    /// Puts steps at the end, from one number up to another.
    fn say_steps(&self, talk: &mut Talk, from: u32, to: u32) -> Result<(), AllocError> {
        for step in from..to {
            let is_last = step.saturating_add(1) == self.steps;
            talk.say("step 0 0", if is_last { "done" } else { "moving" })?;
        }
        Ok(())
    }

    /// Puts the looks at the end.
    fn say_looks(&self, talk: &mut Talk, between: Between<'a>) -> Result<(), AllocError> {
        let count = between.lines.split(';').count();
        let mut answers = between.answers.split(' ').skip(count);
        let mut usual_ones = 0u32;
        for (line, usual) in &self.looks {
            let mut answer: &str = usual;
            if usual_ones > 0 {
                usual_ones -= 1;
            } else if let Some(word) = answers.next() {
                match word.parse::<u32>() {
                    Ok(count) => usual_ones = count.saturating_sub(1),
                    Err(_) => answer = word,
                }
            }
            talk.say(line, answer)?;
        }
        Ok(())
    }
}

/// Puts lines and their answers at the end.
fn say_pairs(talk: &mut Talk, pairs: &[Pair<'_>]) -> Result<(), AllocError> {
    for (line, answer) in pairs {
        talk.say(line, answer)?;
    }
    Ok(())
}
