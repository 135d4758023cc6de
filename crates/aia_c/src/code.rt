ghost use Rattle.std.specs.Prelude.{◌≡◌};
ghost use Rattle.aia_c.specs.Codes.{number, refusal_number, code_of};

use aia_model::{Answer, Refusal};

/// What a call answers to C, as a number: how the call went, or the answer of its line.
#[derive(Clone, Copy, Debug, PartialEq, Eq)]
pub enum Code {
    /// 0: the line did what it says, or the call did.
    Done,
    /// 1: there is no memory, and by the text that wants it nothing changed.
    NoMemory,
    /// 2: the handle is closed, and nothing changed.
    Closed,
    /// 3: the handle is open already, and nothing changed.
    Open,
    /// 4: there is too little room for an answer; for the text that would come next nothing
    /// changed.
    NoRoom,
    /// 5: the numbers name no line, and nothing changed.
    NoLine,
    /// 16: the answer `nomachine`.
    NoMachine,
    /// 17: the answer `again`.
    Again,
    /// 18: the answer `moving`.
    Moving,
    /// 19: the answer `bad`.
    Bad,
    /// 32 to 49: the word of a refused line.
    Refused(Refusal),
}

/// Gives the number of the word of a refusal.
fn refusal_number(word: Refusal) -> i32
    ensures { result ≡ refusal_number word }
{
    match word {
        Refusal::Range => 32,
        Refusal::Full => 33,
        Refusal::Busy => 34,
        Refusal::Home => 35,
        Refusal::Entered => 36,
        Refusal::Parked => 37,
        Refusal::NoFile => 38,
        Refusal::Passed => 39,
        Refusal::Unready => 40,
        Refusal::Idle => 41,
        Refusal::Away => 42,
        Refusal::Illegal => 43,
        Refusal::Virtual => 44,
        Refusal::Fault => 45,
        Refusal::Guarded => 46,
        Refusal::Other => 47,
        Refusal::NotValid => 48,
        Refusal::GFault => 49,
    }
}

impl Code {
    /// Gives the number of the code.
    #[inline(always)]
    pub fn number(self) -> i32
        ensures { result ≡ number self }
    {
        match self {
            Code::Done => 0,
            Code::NoMemory => 1,
            Code::Closed => 2,
            Code::Open => 3,
            Code::NoRoom => 4,
            Code::NoLine => 5,
            Code::NoMachine => 16,
            Code::Again => 17,
            Code::Moving => 18,
            Code::Bad => 19,
            Code::Refused(word) => refusal_number(word),
        }
    }

    /// Gives the code of an answer.
    #[inline(always)]
    pub fn of(answer: &Answer) -> Code
        ensures { result ≡ code_of answer.now }
    {
        match answer {
            Answer::NoMachine => Code::NoMachine,
            Answer::Again => Code::Again,
            Answer::Moving => Code::Moving,
            Answer::Bad => Code::Bad,
            Answer::Refused(word) => Code::Refused(*word),
            _ => Code::Done,
        }
    }
}
