ghost use Rattle.std.specs.Prelude.{◌≡◌, ◌↔◌, ◌-◌, ◌^◌, min, [], None, IsTrue, IsNone, IfOk, OnErr, if◌then◌else◌};
ghost use Rattle.aia_model.specs.Forms.{IsListed};
ghost use Rattle.aia_model.specs.Text.{is_skipped};
ghost use Rattle.aia_model.specs.Event.{History};
ghost use Rattle.aia_model.specs.Notice.{notices_sent};
ghost use Rattle.aia_model.specs.Reading.{reading};
ghost use Rattle.aia_replay.specs.Stands.{StandsFor, Serves, ServesText, WantsMachine, ReadsAsMachine};

use crate::machine::Machine;
use aia_model::{Answer, Line, Parsed, Refusal};
use aia_script::parse_line;
use std::alloc::{AllocError, Global};
use std::marker::Model;

/// Answers lines, one after another, by the state that the lines before left.
#[derive(Drop)]
pub struct Engine {
    machine: Option<Machine>,
}

impl Model for Engine {
    ghost use Rattle.aia_replay.specs.Stands.{EngineState, IsSound};

    ghost Value = { EngineState };

    ghost view = { λ e. e.machine };

    ghost invariant = { λ e. IsSound e.machine };
}

impl Engine {
    /// Makes an engine with no machine.
    pub fn new() -> Engine
        ensures { StandsFor result [] }
    {
        Engine { machine: None }
    }

    /// Answers a line. `Err` is want of memory, which only an accepted `machine` line takes: no
    /// machine stands then, and all is as before. After a refused line it stands for the same
    /// history. The line's CSR is one that lines of its form name.
    #[inline(always)]
    pub fn line(&mut self, alloc: Global, line: &Line) -> Result<Answer, AllocError>
        requires { IsListed line.now }
        ensures serves { IfOk result (Serves self.old self.new line.now) }
        ensures err { OnErr result (self.new ≡ self.old) }
        ensures none { OnErr result (StandsFor self.new []) }
        ensures memory { OnErr result (WantsMachine self.old line.now) }
    {
        match &mut self.machine {
            Some(machine) => Ok(machine.line(line)),
            None => self.first_line(alloc, line),
        }
    }

    /// Answers a line where no machine stands.
    #[inline(always)]
    fn first_line(&mut self, alloc: Global, line: &Line) -> Result<Answer, AllocError>
        requires { self.old ≡ None }
        ensures serves { IfOk result (Serves self.old self.new line.now) }
        ensures err { OnErr result (self.new ≡ self.old) }
        ensures none { OnErr result (StandsFor self.new []) }
        ensures memory { OnErr result (WantsMachine self.old line.now) }
    {
        let Line::Machine {
            harts,
            guests,
            n,
            sources,
        } = *line
        else {
            return Ok(Answer::NoMachine);
        };
        if self.begin(alloc, harts, guests, n, sources)? {
            Ok(Answer::Okay)
        } else {
            Ok(Answer::Refused(Refusal::Range))
        }
    }

    /// Makes the machine of these numbers, where none stands. `false` exactly where a machine may
    /// not have them, and `Err` is want of memory; none is made then.
    #[cold]
    #[inline(never)]
    fn begin(
        &mut self,
        alloc: Global,
        harts: u64,
        guests: u64,
        n: u64,
        sources: u64,
    ) -> Result<bool, AllocError>
        requires { self.old ≡ None }
        ensures serves { IfOk result (λ made. Serves self.old self.new
            (Line.Machine harts guests n sources)
            (if made then Answer.Okay else Answer.Refused Refusal.Range)) }
        ensures err { OnErr result (self.new ≡ self.old) }
        ensures none { OnErr result (StandsFor self.new []) }
        ensures memory { OnErr result
            (WantsMachine self.old (Line.Machine harts guests n sources)) }
    {
        let Some(machine) = Machine::of_size(alloc, harts, guests, n, sources)? else {
            return Ok(false);
        };
        let _ = self.machine.insert(machine);
        Ok(true)
    }

    /// Tells how many notices were sent, 0 where no machine stands; the count stays at `2^64 - 1`.
    pub fn notices(&self) -> u64
        ensures { (h : History) → StandsFor self.now h
            → result ≡ min (notices_sent h) (2 ^ 64 - 1) }
    {
        match &self.machine {
            Some(machine) => machine.notices(),
            None => 0,
        }
    }

    /// Answers a text of a script, by what it reads as: `None` exactly for a skipped text, and
    /// `Bad` for one that is neither skipped nor a line. Both change nothing. `Err` is as of
    /// [`Engine::line`].
    #[inline(always)]
    pub fn text(&mut self, alloc: Global, text: &[u8]) -> Result<Option<Answer>, AllocError>
        ensures serves { IfOk result (ServesText self.old self.new (reading text.now)) }
        ensures skipped { IfOk result (λ given. IsNone given ↔ IsTrue (is_skipped text.now)) }
        ensures err { OnErr result (self.new ≡ self.old) }
        ensures none { OnErr result (StandsFor self.new []) }
        ensures memory { OnErr result (ReadsAsMachine self.old (reading text.now)) }
    {
        match parse_line(text) {
            Parsed::Line(line) => Ok(Some(self.line(alloc, &line)?)),
            Parsed::Skip => Ok(None),
            Parsed::Bad => Ok(Some(Answer::Bad)),
        }
    }
}
