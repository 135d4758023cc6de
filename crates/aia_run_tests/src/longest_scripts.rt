//! Scripts of the most bytes that one may have, and of one more, each byte an LF.

use crate::outcomes::{Ends, ends_with};
use aia_replay::Status;
use std::test::Fail;

/// The most bytes that a script has.
const MOST_BYTES: usize = 16_777_216;

#[test]
fn as_many_line_feeds_as_a_script_may_have_print_nothing(rt: HostRuntime) -> Result<(), Fail> {
    let alloc = rt.alloc();
    let mut script = vec![in alloc; b'\n'; MOST_BYTES]?;
    ends_with(
        &rt,
        alloc,
        &script,
        Ends::sound(MOST_BYTES),
        Status::Done,
        b"",
    )?;
    script.push(b'\n')?;
    ends_with(
        &rt,
        alloc,
        &script,
        Ends::sound(MOST_BYTES),
        Status::TooLong,
        b"",
    )?;
    Ok(())
}
