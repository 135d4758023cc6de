//! A file of plans that comes in pieces.

ghost use Rattle.std.specs.Prelude.{◌≡◌, ◌+◌, ◌-◌, ◌^◌, ◌<◌, ◌++◌, List, [], ◌∷◌, IfOk, OnOk, length};
ghost use Rattle.aia_io.specs.Lines.{NoEnd};
ghost use Rattle.plans_text.specs.PlanFile as file;
ghost use Rattle.plans_text.specs.PlanFile.{AreInFile};
ghost use Rattle.plans_text.specs.Streaming.{HasRead, IsReady, NoneWaits, WhateverWasRead, lines_read};

use crate::outcome::Answered;
use crate::plan_file::PlanFile;
use crate::words::find_byte;
use std::alloc::{AllocError, Global};

/// Reads a file of plans that comes in pieces, and keeps one plan of it.
#[derive(Drop)]
pub struct PlanFileReader {
    file: PlanFile,

    /// What was read after the last LF.
    rest: Vec<u8>,
}

impl PlanFileReader {
    /// Makes a reader that has read nothing.
    pub fn new(alloc: Global) -> PlanFileReader
        ensures read { HasRead result [] [] }
        ensures none { NoneWaits result }
    {
        PlanFileReader {
            file: PlanFile::new(alloc),
            rest: Vec::new(alloc),
        }
    }

    /// Reads the line that ends with a part. `Err`: there is no memory for it.
    fn read_line(&mut self, alloc: Global, part: &[u8]) -> Result<(), AllocError>
        requires inside { AreInFile self.old.file.draft }
        requires room { self.old.file.lines < 2 ^ 64 - 1 }
        ensures read { OnOk result (NoEnd part.now → WhateverWasRead self.old
            (λ given bytes. HasRead self.new given (bytes ++ (part.now ++ 10 ∷ [])))) }
        ensures inside { AreInFile self.new.file.draft }
        ensures lines { OnOk result (self.new.file.lines ≡ self.old.file.lines + 1) }
    {
        self.rest.extend_from_slice(part)?;
        self.file.add_text(alloc, &self.rest)?;
        self.rest.clear();
        Ok(())
    }

    /// Reads a piece of the file. `Err`: there is no memory for it.
    pub fn feed(&mut self, alloc: Global, piece: &[u8]) -> Result<(), AllocError>
        requires ready { IsReady self.old }
        requires room { lines_read self.old + length piece.now < 2 ^ 64 - 1 }
        ensures { OnOk result (WhateverWasRead self.old
            (λ given bytes. HasRead self.new given (bytes ++ piece.now))) }
    {
        let mut left = piece;
        while let Some(end) = find_byte(left, b'\n') {
            self.read_line(alloc, &left[..end])?;
            left = &left[end + 1..];
        }
        self.rest.extend_from_slice(left)
    }

    /// Gives the answers of the plans that ended, but for those that it gave before.
    pub fn take_answers(&mut self, alloc: Global) -> Vec<u8>
        ensures read { WhateverWasRead self.old
            (λ given bytes. HasRead self.new (given ++ result.items) bytes) }
        ensures none { NoneWaits self.new }
    {
        self.file.take_answers(alloc)
    }

    /// Ends the file, and gives the answers that it did not give before, and what came of all its
    /// plans. `Err`: there is no memory for them.
    pub fn finish(self, alloc: Global) -> Result<Answered, AllocError>
        requires ready { IsReady self }
        requires room { lines_read self < 2 ^ 64 - 1 }
        ensures text { IfOk result (λ out. WhateverWasRead self
            (λ given bytes. given ++ out.text.items ≡ file.answers bytes)) }
        ensures outcome { IfOk result (λ out. WhateverWasRead self
            (λ given bytes. out.outcome ≡ file.outcome bytes)) }
    {
        let mut file = self.file;
        file.add_last(alloc, &self.rest)?;
        file.finish(alloc)
    }
}
