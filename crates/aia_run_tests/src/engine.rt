//! The engine, by lines and by texts.

ghost use Rattle.aia_model.specs.Forms.{IsListed};

use crate::same;
use aia_model::{Answer, Line, Refusal};
use aia_regs::{Csr, Op};
use aia_replay::Engine;
use std::alloc::{AllocError, Global};
use std::process::Abort;
use std::test::Fail;

/// Takes a line. It promises nothing, so that the test knows nothing of the engine.
fn serves(alloc: Global, engine: &mut Engine, line: &Line) -> Result<Answer, AllocError>
    requires { IsListed line.now }
{
    engine.line(alloc, line)
}

/// Takes the text of a line.
fn reads(alloc: Global, engine: &mut Engine, text: &str) -> Result<Option<Answer>, AllocError> {
    engine.text(alloc, text.as_bytes())
}

/// What the engine is asked, and what it has to answer.
fn converses(rt: &impl Abort, alloc: Global, engine: &mut Engine) -> Result<(), AllocError> {
    let store = Line::Store {
        addr: 0x2800_0000,
        value: 5,
    };
    same!(rt; serves(alloc, engine, &store)?, Answer::NoMachine);
    let texts = [
        ("# one hart", None),
        ("machine 1 0 63 8", Some(Answer::Okay)),
        ("h 0 csrrw siselect 0xc0", Some(Answer::Wide(0))),
        ("h 0 csrrw sireg 0x20", Some(Answer::Wide(0))),
        ("h 0 csrrw sireg", Some(Answer::Bad)),
        ("h 1 csrr sireg", Some(Answer::Refused(Refusal::Range))),
        ("h 0 csrr sireg", Some(Answer::Wide(0x20))),
    ];
    for (text, answer) in texts {
        same!(rt; reads(alloc, engine, text)?, answer; text);
    }
    same!(rt; serves(alloc, engine, &store)?, Answer::Okay);
    let claim = Line::HostCsr {
        hart: 0,
        csr: Csr::Topei,
        op: Op::Write(0),
    };
    same!(rt; serves(alloc, engine, &claim)?, Answer::Wide(0x5_0005));
    same!(rt; serves(alloc, engine, &claim)?, Answer::Wide(0));
    Ok(())
}

#[test]
fn an_engine_answers_lines_and_texts(rt: HostRuntime) -> Result<(), Fail> {
    let mut engine = Engine::new();
    let done = converses(&rt, rt.alloc(), &mut engine);
    drop(engine);
    done?;
    Ok(())
}
