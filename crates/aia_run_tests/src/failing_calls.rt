//! Ends that fail at each of their calls in turn, and sinks with each length of room.

use crate::looks::holds;
use crate::outcomes::{Ends, ends_with, outcome_of};
use crate::rows::{Pairs, answers_of, lines_in, script_of};
use crate::runs::ROOM;
use crate::same;
use aia_guest_vectors::rows::stepwise_moves::REQUEST_AGAIN_WHILE_IT_IS_CARRIED;
use aia_replay::Status;
use aia_vectors::rows::files::STORE_IS_CLAIMED;
use std::alloc::{AllocError, Global};
use std::process::Abort;
use std::test::Fail;

/// The lengths of pieces: within a line, across lines, and all at once.
const PIECES: [usize; 3] = [1, 7, 4096];

/// More calls than any run here makes.
const MANY_CALLS: u64 = 1000;

/// Ends that cut the row of a claimed store short, and what is written then. Its first two lines
/// have 17 and 24 bytes with their LFs: 40 bytes have one whole line, and 41 bytes have two.
const CUT_SHORT: [(Ends, Status, &str); 3] = [
    (
        Ends {
            piece: 1,
            failing_read: 41,
            failing_write: 0,
            room: ROOM,
        },
        Status::ReadFault,
        "ok\n",
    ),
    (
        Ends {
            piece: 1,
            failing_read: 42,
            failing_write: 0,
            room: ROOM,
        },
        Status::ReadFault,
        "ok\n0x0000000000000000\n",
    ),
    (
        Ends {
            piece: 1,
            failing_read: 0,
            failing_write: 0,
            room: 4,
        },
        Status::WriteFault,
        "ok\n0",
    ),
];

#[test]
fn a_claimed_store_is_cut_short(rt: HostRuntime) -> Result<(), Fail> {
    let alloc = rt.alloc();
    let script = script_of(alloc, &STORE_IS_CLAIMED)?;
    for (ends, status, written) in CUT_SHORT {
        ends_with(&rt, alloc, &script, ends, status, written.as_bytes())?;
    }
    Ok(())
}

/// Lets each read fail in turn, up to the one that tells the end, and then none.
fn each_read_fails(
    rt: &impl Abort,
    alloc: Global,
    row: Pairs,
    piece: usize,
) -> Result<(), AllocError> {
    let script = script_of(alloc, row)?;
    let mut ends = Ends::sound(piece);
    let mut given: usize = 0;
    let mut is_ended = false;
    for call in 1..MANY_CALLS {
        ends.failing_read = call;
        let written = answers_of(alloc, row, lines_in(&script, given))?;
        if is_ended {
            return ends_with(rt, alloc, &script, ends, Status::Done, &written);
        }
        ends_with(rt, alloc, &script, ends, Status::ReadFault, &written)?;
        is_ended = given >= script.len();
        given = given.saturating_add(piece);
    }
    // There are more calls than were looked for.
    holds(rt, false);
    Ok(())
}

#[test]
fn reads_fail_at_each_call(rt: HostRuntime) -> Result<(), Fail> {
    for piece in PIECES {
        each_read_fails(&rt, rt.alloc(), &STORE_IS_CLAIMED, piece)?;
        each_read_fails(&rt, rt.alloc(), &REQUEST_AGAIN_WHILE_IT_IS_CARRIED, piece)?;
    }
    Ok(())
}

/// Lets each write fail in turn, until there is no such call: each time a longer front of the
/// answers is written, and at last all of them.
fn each_write_fails(
    rt: &impl Abort,
    alloc: Global,
    row: Pairs,
    piece: usize,
) -> Result<(), AllocError> {
    let script = script_of(alloc, row)?;
    let answers = answers_of(alloc, row, row.len())?;
    let mut ends = Ends::sound(piece);
    let mut before: usize = 0;
    for call in 1..MANY_CALLS {
        ends.failing_write = call;
        let outcome = outcome_of(rt, alloc, &script, ends)?;
        holds(rt, answers.starts_with(&outcome.written));
        same!(rt; call == 1, outcome.written.len() == 0; ends);
        holds(rt, call == 1 || before < outcome.written.len());
        before = outcome.written.len();
        let is_whole = before == answers.len();
        same!(rt; is_whole, outcome.status == Status::Done; ends);
        same!(rt; is_whole, outcome.status != Status::WriteFault; ends);
        if is_whole {
            return Ok(());
        }
    }
    holds(rt, false);
    Ok(())
}

#[test]
fn writes_fail_at_each_call(rt: HostRuntime) -> Result<(), Fail> {
    for piece in PIECES {
        each_write_fails(&rt, rt.alloc(), &STORE_IS_CLAIMED, piece)?;
        each_write_fails(&rt, rt.alloc(), &REQUEST_AGAIN_WHILE_IT_IS_CARRIED, piece)?;
    }
    Ok(())
}

/// Gives the first bytes of a text, so many or all of it.
fn front(text: &[u8], bytes: usize) -> &[u8] {
    text.get(..bytes).unwrap_or(text)
}

/// Gives the sink each length of room, up to that of the answers: it has as many of their bytes.
fn each_room_is_filled(
    rt: &impl Abort,
    alloc: Global,
    row: Pairs,
    piece: usize,
) -> Result<(), AllocError> {
    let script = script_of(alloc, row)?;
    let answers = answers_of(alloc, row, row.len())?;
    let mut ends = Ends::sound(piece);
    for room in 0..answers.len() {
        ends.room = room;
        ends_with(
            rt,
            alloc,
            &script,
            ends,
            Status::WriteFault,
            front(&answers, room),
        )?;
    }
    ends.room = answers.len();
    ends_with(rt, alloc, &script, ends, Status::Done, &answers)
}

#[test]
fn sinks_are_filled_to_the_last_byte(rt: HostRuntime) -> Result<(), Fail> {
    for piece in PIECES {
        each_room_is_filled(&rt, rt.alloc(), &STORE_IS_CLAIMED, piece)?;
        each_room_is_filled(&rt, rt.alloc(), &REQUEST_AGAIN_WHILE_IT_IS_CARRIED, piece)?;
    }
    Ok(())
}

/// Lets a read fail where the sink has each length of room. Answers are written before the next
/// read, so the sink's fault comes first wherever they have no room.
fn read_fails_with_each_room(
    rt: &impl Abort,
    alloc: Global,
    row: Pairs,
    bytes: usize,
) -> Result<(), AllocError> {
    let script = script_of(alloc, row)?;
    let answers = answers_of(alloc, row, lines_in(&script, bytes))?;
    let mut ends = Ends::sound(1);
    ends.failing_read = (bytes as u64).saturating_add(1);
    for room in 0..answers.len() {
        ends.room = room;
        ends_with(
            rt,
            alloc,
            &script,
            ends,
            Status::WriteFault,
            front(&answers, room),
        )?;
    }
    ends.room = answers.len();
    ends_with(rt, alloc, &script, ends, Status::ReadFault, &answers)
}

#[test]
fn a_read_fails_beside_a_full_sink(rt: HostRuntime) -> Result<(), Fail> {
    let script = script_of(rt.alloc(), &STORE_IS_CLAIMED)?;
    for bytes in 0..script.len() {
        read_fails_with_each_room(&rt, rt.alloc(), &STORE_IS_CLAIMED, bytes)?;
    }
    Ok(())
}
