//! Runs of `audit`: plans that are judged, texts that are no steps, and ends that fail.

use crate::outcomes::{Ends, Outcome, ending, sink_of, source_of};
use crate::runs::{LIMIT, ROOM};
use crate::same;
use aia_io::{MemSink, MemSource, Sink, Source};
use aia_replay::{Status, run};
use std::alloc::{AllocError, Global};
use std::process::Abort;
use std::test::Fail;

/// The core's plan of an arrival at a file of one word.
const ARRIVAL: &str = "word0\nfence\nmap\ngfence\ntakep 0\nputp 0\ntakee 0\npute 0\nputt\nwake\n";

/// The words of the command line, a plan, and what is printed.
const ROWS: [(&[&str], &str, &str); 17] = [
    (&["audit", "arrive", "1"], ARRIVAL, "accepted\n"),
    (
        &["audit", "arrive", "1"],
        "word0\nmap\ngfence\ntakep 0\nputp 0\nfence\ntakee 0\npute 0\nputt\nwake\n",
        "refused 2\n",
    ),
    (&["audit", "shift", "1"], "", "refused 1\n"),
    (&["audit", "arrive", "1"], "word0\ntakep 1", "bad 2\n"),
    // The core's plans of a leave and of a shift.
    (
        &["audit", "leave", "1"],
        "quiet\nword1\nword0\nfence\nunmap\ngfence\ntakep 0\nputp 0\ntakee 0\npute 0\nlook 0\n\
        taket\npost\n",
        "accepted\n",
    ),
    (
        &["audit", "shift", "1"],
        "quiet\nword0\nfence\nremap\ngfence\ntakep 0\nputp 0\ntakee 0\npute 0\ntaket\nputt\nwake",
        "accepted\n",
    ),
    // It is the plan of another kind of move, or of a file of fewer words.
    (&["audit", "leave", "1"], ARRIVAL, "refused 1\n"),
    (&["audit", "arrive", "2"], ARRIVAL, "refused 2\n"),
    // What is taken is put at once, and nothing else stands between.
    (
        &["audit", "arrive", "1"],
        "word0\nfence\nmap\ngfence\ntakep 0\nwake\nputp 0\ntakee 0\npute 0\n",
        "refused 3\n",
    ),
    (
        &["audit", "arrive", "1"],
        "word0\nfence\nmap\ngfence\ntakep 0\nputp 0\n",
        "refused 4\n",
    ),
    // Texts that are skipped do not count.
    (
        &["audit", "arrive", "1"],
        "# an arrival\n\nword0\nfence\nmap\n\n#\ngfence\ntakep 0\nputp 0\ntakee 0x0\npute 0",
        "accepted\n",
    ),
    (
        &["audit", "arrive", "1"],
        "\n# a comment\nword0\n\nx\n",
        "bad 2\n",
    ),
    // The first bad text counts, whatever follows it.
    (&["audit", "arrive", "1"], "x\ny\nword0\n", "bad 1\n"),
    (&["audit", "arrive", "1"], "word0\r\n", "bad 1\n"),
    (&["audit", "arrive", "1"], " word0\n", "bad 1\n"),
    (&["audit", "arrive", "1"], "word0 \n", "bad 1\n"),
    (
        &["audit", "arrive", "32"],
        "takep 31\ntakep 32\n",
        "bad 2\n",
    ),
];

/// The words that ask for an arrival at a file of one word.
const ARRIVE: &[&str] = &["audit", "arrive", "1"];

/// The same call as `run`, with no clause: a test knows nothing of it.
fn audits<S: Source, K: Sink>(
    alloc: Global,
    words: &[&str],
    source: &mut S,
    sink: &mut K,
) -> Status {
    run(alloc, words, source, sink)
}

/// Judges a plan between such ends.
fn outcome_of(
    alloc: Global,
    words: &[&str],
    plan: &[u8],
    ends: Ends,
) -> Result<Outcome, AllocError> {
    let mut source = source_of(alloc, plan, ends)?;
    let mut sink = sink_of(alloc, ends)?;
    let status = audits(alloc, words, &mut source, &mut sink);
    drop(source);
    ending(alloc, status, sink)
}

/// Judges a plan between such ends, and looks at how the run ends and at what it writes.
fn ends_with(
    rt: &impl Abort,
    alloc: Global,
    words: &[&str],
    plan: &[u8],
    ends: Ends,
    status: Status,
    written: &str,
) -> Result<(), AllocError> {
    let outcome = outcome_of(alloc, words, plan, ends)?;
    same!(rt; outcome.status, status; ends);
    same!(rt; outcome.written.as_slice(), written.as_bytes(); ends);
    Ok(())
}

/// Judges a plan that comes in pieces, and looks at the answer.
fn answers(
    rt: &impl Abort,
    alloc: Global,
    words: &[&str],
    plan: &[u8],
    answer: &str,
) -> Result<(), AllocError> {
    for piece in [1, 7, 4096] {
        let ends = Ends::sound(piece);
        ends_with(rt, alloc, words, plan, ends, Status::Done, answer)?;
    }
    Ok(())
}

#[test]
fn plans_are_judged(rt: HostRuntime) -> Result<(), Fail> {
    let alloc = rt.alloc();
    for (words, plan, answer) in ROWS {
        answers(&rt, alloc, words, plan.as_bytes(), answer)?;
    }
    Ok(())
}

/// A plan with so many steps more, which change nothing.
fn with_steps(alloc: Global, plan: &str, count: u32) -> Result<Vec<u8>, AllocError> {
    let mut longer = Vec::from_slice(alloc, plan.as_bytes())?;
    for _ in 0..count {
        longer.extend_from_slice(b"quiet\n")?;
    }
    Ok(longer)
}

#[test]
fn a_plan_has_at_most_512_steps(rt: HostRuntime) -> Result<(), Fail> {
    let alloc = rt.alloc();
    let longest = with_steps(alloc, ARRIVAL, 502)?;
    answers(&rt, alloc, ARRIVE, &longest, "accepted\n")?;
    let longer = with_steps(alloc, ARRIVAL, 503)?;
    answers(&rt, alloc, ARRIVE, &longer, "bad 513\n")?;
    let much_longer = with_steps(alloc, ARRIVAL, 2000)?;
    answers(&rt, alloc, ARRIVE, &much_longer, "bad 513\n")?;
    Ok(())
}

#[test]
fn a_text_of_over_128_bytes_is_bad(rt: HostRuntime) -> Result<(), Fail> {
    let alloc = rt.alloc();
    answers(&rt, alloc, ARRIVE, &[b'#'; 128], "refused 1\n")?;
    answers(&rt, alloc, ARRIVE, &[b'#'; 129], "bad 1\n")?;
    let mut plan = Vec::from_slice(alloc, b"word0\n")?;
    plan.extend_from_slice(&[b'w'; 129])?;
    answers(&rt, alloc, ARRIVE, &plan, "bad 2\n")?;
    Ok(())
}

/// Judges a plan of one long text in one piece.
fn judges_long(
    rt: &impl Abort,
    alloc: Global,
    bytes: usize,
    status: Status,
    answer: &str,
) -> Result<(), AllocError> {
    let plan = vec![in alloc; b'#'; bytes]?;
    let mut source = MemSource::new(plan, LIMIT, Vec::new(alloc));
    let mut sink = MemSink::new(alloc, ROOM, Vec::new(alloc))?;
    same!(rt; audits(alloc, ARRIVE, &mut source, &mut sink), status);
    same!(rt; sink.bytes(), answer.as_bytes());
    Ok(())
}

#[test]
fn a_plan_has_at_most_so_many_bytes(rt: HostRuntime) -> Result<(), Fail> {
    let alloc = rt.alloc();
    judges_long(&rt, alloc, LIMIT, Status::Done, "bad 1\n")?;
    judges_long(&rt, alloc, LIMIT + 1, Status::TooLong, "")?;
    Ok(())
}

#[test]
fn a_source_that_fails_leaves_nothing_written(rt: HostRuntime) -> Result<(), Fail> {
    let alloc = rt.alloc();
    // The plan has 63 bytes, so 9 reads give it, and the one after them finds its end.
    for failing_read in 1..=10u64 {
        let ends = Ends {
            failing_read,
            ..Ends::sound(7)
        };
        let plan = ARRIVAL.as_bytes();
        ends_with(&rt, alloc, ARRIVE, plan, ends, Status::ReadFault, "")?;
    }
    let ends = Ends {
        failing_read: 11,
        ..Ends::sound(7)
    };
    let plan = ARRIVAL.as_bytes();
    ends_with(&rt, alloc, ARRIVE, plan, ends, Status::Done, "accepted\n")?;
    Ok(())
}

#[test]
fn a_sink_that_fails_has_a_front_of_the_answer(rt: HostRuntime) -> Result<(), Fail> {
    let alloc = rt.alloc();
    let answer = "accepted\n";
    let plan = ARRIVAL.as_bytes();
    for room in 0..answer.len() {
        let ends = Ends {
            room,
            ..Ends::sound(4096)
        };
        let outcome = outcome_of(alloc, ARRIVE, plan, ends)?;
        same!(rt; outcome.status, Status::WriteFault; room);
        same!(rt; outcome.written.as_slice(), &answer.as_bytes()[..room]; room);
    }
    let failing = Ends {
        failing_write: 1,
        ..Ends::sound(4096)
    };
    ends_with(&rt, alloc, ARRIVE, plan, failing, Status::WriteFault, "")?;
    let later = Ends {
        failing_write: 2,
        ..Ends::sound(4096)
    };
    ends_with(&rt, alloc, ARRIVE, plan, later, Status::Done, answer)?;
    Ok(())
}
