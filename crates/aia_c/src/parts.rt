//! Calls without text about parts of images, and about entries.

ghost use Rattle.std.specs.Prelude.{◌≡◌, [], ◌∷◌};
ghost use Rattle.aia_c.specs.Calls.{FetchesAll, ActsAt};
ghost use Rattle.aia_c.specs.Codes.{all_read_in};
ghost use Rattle.aia_c.specs.Parts.{part_numbers, part_of, entry_of, image_at, part_at, loading};

use crate::code::Code;
use crate::handle::Handle;
use crate::serve::{number_of, serve};
use aia_entry::Entry;
use aia_model::{Answer, Line, Part};
use std::alloc::Global;

/// A kind, and up to five numbers.
#[derive(Clone, Copy)]
struct Numbers {
    kind: u32,
    first: u64,
    second: u64,
    third: u64,
    fourth: u64,
    fifth: u64,
}

/// Gives a kind with three numbers.
fn of_three(kind: u32, first: u64, second: u64, third: u64) -> Numbers
    ensures { result ≡ record {
      kind = kind;
      first = first;
      second = second;
      third = third;
      fourth = 0;
      fifth = 0;
    } }
{
    Numbers {
        kind,
        first,
        second,
        third,
        fourth: 0,
        fifth: 0,
    }
}

/// Gives the numbers of a part.
fn part_numbers(part: Part) -> Numbers
    ensures { result.kind ∷ result.first ∷ result.second ∷ result.third ∷ result.fourth
        ∷ result.fifth ∷ [] ≡ part_numbers part }
{
    match part {
        Part::Image {
            version,
            n,
            delivery,
            threshold,
            select,
        } => Numbers {
            kind: 1,
            first: version as u64,
            second: n as u64,
            third: if delivery { 1 } else { 0 },
            fourth: threshold as u64,
            fifth: select,
        },
        Part::Majors { injected, enabled } => of_three(2, injected, enabled, 0),
        Part::Prio { hviprio, hvictl } => of_three(3, hviprio, hvictl, 0),
        Part::Word { w, pending, enable } => of_three(4, w, pending, enable),
    }
}

/// Gives the part that was answered, all 0 where none was.
fn part_in(given: &Result<Answer, Code>) -> Numbers
    ensures { result.kind ∷ result.first ∷ result.second ∷ result.third ∷ result.fourth
        ∷ result.fifth ∷ [] ≡ all_read_in part_of given.now }
{
    match given {
        Ok(Answer::Part(part)) => part_numbers(*part),
        _ => of_three(0, 0, 0, 0),
    }
}

/// Gives what an entry was said to be, all 0 where none was.
fn entry_in(given: &Result<Answer, Code>) -> Numbers
    ensures { result.kind ∷ result.first ∷ result.second ∷ result.third ∷ []
        ≡ all_read_in entry_of given.now }
{
    match given {
        Ok(Answer::Entry(Entry::Basic(page))) => of_three(1, *page, 0, 0),
        Ok(Answer::Entry(Entry::Mrif(addr, page, identity))) => {
            of_three(2, *addr, *page, *identity as u64)
        }
        Ok(Answer::Entry(Entry::NotValid)) => of_three(3, 0, 0, 0),
        Ok(Answer::Entry(Entry::Custom)) => of_three(4, 0, 0, 0),
        Ok(Answer::Entry(Entry::Misconfigured)) => of_three(5, 0, 0, 0),
        _ => of_three(0, 0, 0, 0),
    }
}

/// Gives a part of the image of a virtual hart in memory, as `save VM C K`: its kind, and what its
/// line has after that word; all are 0 where the line is refused, and behind the last.
#[unsafe(no_mangle)]
#[tactic(auto, using(crate::proofs::ServingLemmas::all_served))]
pub extern "C" fn aia_save(
    handle: &mut Handle,
    vm: u64,
    vcpu: u64,
    k: u64,
    kind: &mut u32,
    first: &mut u64,
    second: &mut u64,
    third: &mut u64,
    fourth: &mut u64,
    fifth: &mut u64,
    alloc: Global,
) -> i32
    ensures { FetchesAll part_of handle.old.engine handle.new.engine (Line.Save vm vcpu k) result
        (kind.new ∷ first.new ∷ second.new ∷ third.new ∷ fourth.new ∷ fifth.new ∷ []) }
{
    let line = Line::Save { vm, vcpu, k };
    let given = serve(handle, &line, alloc);
    let part = part_in(&given);
    *kind = part.kind;
    *first = part.first;
    *second = part.second;
    *third = part.third;
    *fourth = part.fourth;
    *fifth = part.fifth;
    number_of(given)
}

/// Gives the part `image` of five numbers, `None` where one does not fit.
fn image_at(version: u64, n: u64, delivery: u64, threshold: u64, select: u64) -> Option<Part>
    ensures { result ≡ image_at version n delivery threshold select }
{
    let end = 0x1_0000_0000;
    if version < end && n < end && delivery < 2 && threshold < end {
        Some(Part::Image {
            version: version as u32,
            n: n as u32,
            delivery: delivery == 1,
            threshold: threshold as u32,
            select,
        })
    } else {
        None
    }
}

/// Gives the part of a kind and five numbers, `None` where they spell none.
fn part_at(kind: u32, first: u64, second: u64, third: u64, fourth: u64, fifth: u64) -> Option<Part>
    ensures { result ≡ part_at kind first second third fourth fifth }
{
    match kind {
        1 => image_at(first, second, third, fourth, fifth),
        2 => Some(Part::Majors {
            injected: first,
            enabled: second,
        }),
        3 => Some(Part::Prio {
            hviprio: first,
            hvictl: second,
        }),
        4 => Some(Part::Word {
            w: first,
            pending: second,
            enable: third,
        }),
        _ => None,
    }
}

/// Loads a part of an image into a virtual hart in memory, as `load VM C PART`: its kind, and what
/// the line has after that word. The numbers behind the last are not looked at; those that are of
/// no part name no line.
#[unsafe(no_mangle)]
pub extern "C" fn aia_load_part(
    handle: &mut Handle,
    vm: u64,
    vcpu: u64,
    kind: u32,
    first: u64,
    second: u64,
    third: u64,
    fourth: u64,
    fifth: u64,
    alloc: Global,
) -> i32
    ensures { ActsAt handle.old.engine handle.new.engine
        (loading vm vcpu (part_at kind first second third fourth fifth)) result }
{
    let Some(part) = part_at(kind, first, second, third, fourth, fifth) else {
        return Code::NoLine.number();
    };
    let line = Line::LoadPart { vm, vcpu, part };
    number_of(serve(handle, &line, alloc))
}

/// Says what an entry of these words is, as `entry W0 W1`: its kind, and the numbers that are
/// printed after that word; all are 0 where the line is refused, and behind the last.
#[unsafe(no_mangle)]
#[tactic(auto, using(crate::proofs::ServingLemmas::all_served))]
pub extern "C" fn aia_entry(
    handle: &mut Handle,
    w0: u64,
    w1: u64,
    kind: &mut u32,
    first: &mut u64,
    second: &mut u64,
    third: &mut u64,
    alloc: Global,
) -> i32
    ensures { FetchesAll entry_of handle.old.engine handle.new.engine (Line.Entry w0 w1) result
        (kind.new ∷ first.new ∷ second.new ∷ third.new ∷ []) }
{
    let line = Line::Entry { w0, w1 };
    let given = serve(handle, &line, alloc);
    let entry = entry_in(&given);
    *kind = entry.kind;
    *first = entry.first;
    *second = entry.second;
    *third = entry.third;
    number_of(given)
}
