//! The candidates of a hart, and which sources wait for an MSI.

use crate::looks::holds;
use crate::same;
use aia_domain::{Candidates, ReadyBits};
use std::test::Fail;

#[test]
fn pairs_stand_by_priority_and_then_by_number(rt: HostRuntime) -> Result<(), Fail> {
    let mut pairs = Candidates::new(rt.alloc(), 4)?;
    same!(rt; pairs.at(0), None);
    pairs.put((2, 7));
    pairs.put((1, 9));
    pairs.put((2, 5));
    pairs.put((1, 1023));
    same!(rt; pairs.at(0), Some((1, 9)));
    same!(rt; pairs.at(1), Some((1, 1023)));
    same!(rt; pairs.at(2), Some((2, 5)));
    same!(rt; pairs.at(3), Some((2, 7)));
    same!(rt; pairs.at(4), None);
    pairs.take_out((1, 7));
    pairs.take_out((1, 9));
    same!(rt; pairs.at(0), Some((1, 1023)));
    same!(rt; pairs.at(2), Some((2, 7)));
    same!(rt; pairs.at(3), None);
    pairs.clear();
    same!(rt; pairs.at(0), None);
    Ok(())
}

#[test]
fn sources_are_put_into_a_set_and_taken_out(rt: HostRuntime) {
    let mut ready = ReadyBits::new();
    holds(&rt, ready.is_empty());
    ready.set(1023, true);
    ready.set(64, true);
    ready.set(65, true);
    ready.set(64, false);
    same!(rt; ready.word(0), 0);
    same!(rt; ready.word(1), 0b10);
    same!(rt; ready.word(15), 1 << 63);
    holds(&rt, !ready.is_empty());
    ready.set(65, false);
    holds(&rt, !ready.is_empty());
    ready.clear();
    same!(rt; ready.word(15), 0);
    holds(&rt, ready.is_empty());
}
