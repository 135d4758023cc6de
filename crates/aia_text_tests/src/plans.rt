//! Plans: steps that are read, and plans that are judged.

ghost use Rattle.aia_plan.specs.Plan.{IsWidth};

use crate::same;
use aia_audit::{Kind, Step, Verdict, audit, names};
use aia_script::parse_step;
use arrayvec::ArrayVec;
use std::process::Abort;

/// Reads a step of a file of so many words.
fn reads(rt: &impl Abort, text: &str, words: u32, want: Option<Step>) {
    same!(rt; parse_step(text.as_bytes(), words), want; text);
}

/// The names of steps that are one word, and what they name.
const ALONE: [(&str, Step); 12] = [
    ("quiet", Step::Quiet),
    ("word1", Step::Word1),
    ("word0", Step::Word0),
    ("fence", Step::Fence),
    ("map", Step::Map),
    ("unmap", Step::Unmap),
    ("remap", Step::Remap),
    ("gfence", Step::GFence),
    ("taket", Step::TakeT),
    ("putt", Step::PutT),
    ("post", Step::Post),
    ("wake", Step::Wake),
];

/// Texts that spell no step of a file of one word.
const NONE: [&str; 12] = [
    "",
    "# quiet",
    "Quiet",
    " quiet",
    "quiet ",
    "quiet 0",
    "takep",
    "takep 1",
    "takep  0",
    "takep 00",
    "takep 0 0",
    "look 4294967296",
];

#[test]
fn steps_are_read(rt: HostRuntime) {
    for (text, step) in &ALONE {
        reads(&rt, text, 1, Some(*step));
    }
    reads(&rt, "takep 0x0", 1, Some(Step::TakeP(0)));
    reads(&rt, "putp 1", 2, Some(Step::PutP(1)));
    reads(&rt, "takee 31", 32, Some(Step::TakeE(31)));
    reads(&rt, "pute 0x000000000000001f", 32, Some(Step::PutE(31)));
    reads(&rt, "look 10", 16, Some(Step::Look(10)));
}

#[test]
fn other_texts_are_no_steps(rt: HostRuntime) {
    for text in &NONE {
        reads(&rt, text, 1, None);
    }
    reads(&rt, "look 32", 32, None);
    same!(rt; parse_step(&[b'w'; 129], 1), None);
}

/// Judges the core's plan of a move, of a file of so many words.
fn judges_the_core(rt: &impl Abort, kind: Kind, words: u32)
    requires { IsWidth words }
{
    let mut plan = ArrayVec::new();
    names(kind, words, &mut plan);
    same!(rt; audit(kind, words, &plan), Verdict::Accepted; kind);
}

#[test]
fn the_plans_of_the_core_are_accepted(rt: HostRuntime) {
    judges_the_core(&rt, Kind::Leave, 32);
    judges_the_core(&rt, Kind::Arrive, 1);
    judges_the_core(&rt, Kind::Shift, 8);
}

#[test]
fn a_plan_of_no_steps_is_refused(rt: HostRuntime) {
    same!(rt; audit(Kind::Shift, 1, &[]), Verdict::Refused(1));
}
