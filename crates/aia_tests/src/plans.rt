//! The accesses of plans, by their places.

use crate::same;
use aia_vcpu::{Access, End, access_at, plan_steps};
use std::test::Fail;

#[test]
fn a_leave_looks_at_memory_and_posts_last(rt: HostRuntime) -> Result<(), Fail> {
    same!(rt; access_at(End::File, End::Memory, 2, 0), Access::TakeDelivery);
    same!(rt; access_at(End::File, End::Memory, 2, 1), Access::WriteNotice);
    same!(rt; access_at(End::File, End::Memory, 2, 2), Access::WriteEntry);
    same!(rt; access_at(End::File, End::Memory, 2, 3), Access::Fence);
    same!(rt; access_at(End::File, End::Memory, 2, 4), Access::Map);
    same!(rt; access_at(End::File, End::Memory, 2, 5), Access::GFence);
    same!(rt; access_at(End::File, End::Memory, 2, 6), Access::TakePending(0));
    same!(rt; access_at(End::File, End::Memory, 2, 7), Access::PutPending(0));
    same!(rt; access_at(End::File, End::Memory, 2, 8), Access::TakePending(1));
    same!(rt; access_at(End::File, End::Memory, 2, 9), Access::PutPending(1));
    same!(rt; access_at(End::File, End::Memory, 2, 10), Access::TakeEnables(0));
    same!(rt; access_at(End::File, End::Memory, 2, 11), Access::PutEnables(0));
    same!(rt; access_at(End::File, End::Memory, 2, 12), Access::TakeEnables(1));
    same!(rt; access_at(End::File, End::Memory, 2, 13), Access::PutEnables(1));
    same!(rt; access_at(End::File, End::Memory, 2, 14), Access::Look(0));
    same!(rt; access_at(End::File, End::Memory, 2, 15), Access::Look(1));
    same!(rt; access_at(End::File, End::Memory, 2, 16), Access::TakeThreshold);
    same!(rt; access_at(End::File, End::Memory, 2, 17), Access::Post);
    same!(rt; plan_steps(End::File, End::Memory, 2), 18);
    Ok(())
}

#[test]
fn an_arrival_wakes_the_new_file_last(rt: HostRuntime) -> Result<(), Fail> {
    same!(rt; access_at(End::Memory, End::File, 2, 0), Access::WriteEntry);
    same!(rt; access_at(End::Memory, End::File, 2, 1), Access::Fence);
    same!(rt; access_at(End::Memory, End::File, 2, 2), Access::Map);
    same!(rt; access_at(End::Memory, End::File, 2, 3), Access::GFence);
    same!(rt; access_at(End::Memory, End::File, 2, 4), Access::TakePending(0));
    same!(rt; access_at(End::Memory, End::File, 2, 5), Access::PutPending(0));
    same!(rt; access_at(End::Memory, End::File, 2, 6), Access::TakePending(1));
    same!(rt; access_at(End::Memory, End::File, 2, 7), Access::PutPending(1));
    same!(rt; access_at(End::Memory, End::File, 2, 8), Access::TakeEnables(0));
    same!(rt; access_at(End::Memory, End::File, 2, 9), Access::PutEnables(0));
    same!(rt; access_at(End::Memory, End::File, 2, 10), Access::TakeEnables(1));
    same!(rt; access_at(End::Memory, End::File, 2, 11), Access::PutEnables(1));
    same!(rt; access_at(End::Memory, End::File, 2, 12), Access::PutThreshold);
    same!(rt; access_at(End::Memory, End::File, 2, 13), Access::PutDelivery);
    same!(rt; plan_steps(End::Memory, End::File, 2), 14);
    Ok(())
}

#[test]
fn a_shift_takes_numbers_and_puts_them(rt: HostRuntime) -> Result<(), Fail> {
    same!(rt; access_at(End::File, End::File, 2, 0), Access::TakeDelivery);
    same!(rt; access_at(End::File, End::File, 2, 1), Access::WriteEntry);
    same!(rt; access_at(End::File, End::File, 2, 2), Access::Fence);
    same!(rt; access_at(End::File, End::File, 2, 3), Access::Map);
    same!(rt; access_at(End::File, End::File, 2, 4), Access::GFence);
    same!(rt; access_at(End::File, End::File, 2, 5), Access::TakePending(0));
    same!(rt; access_at(End::File, End::File, 2, 6), Access::PutPending(0));
    same!(rt; access_at(End::File, End::File, 2, 7), Access::TakePending(1));
    same!(rt; access_at(End::File, End::File, 2, 8), Access::PutPending(1));
    same!(rt; access_at(End::File, End::File, 2, 9), Access::TakeEnables(0));
    same!(rt; access_at(End::File, End::File, 2, 10), Access::PutEnables(0));
    same!(rt; access_at(End::File, End::File, 2, 11), Access::TakeEnables(1));
    same!(rt; access_at(End::File, End::File, 2, 12), Access::PutEnables(1));
    same!(rt; access_at(End::File, End::File, 2, 13), Access::TakeThreshold);
    same!(rt; access_at(End::File, End::File, 2, 14), Access::PutThreshold);
    same!(rt; access_at(End::File, End::File, 2, 15), Access::PutDelivery);
    same!(rt; plan_steps(End::File, End::File, 2), 16);
    Ok(())
}

#[test]
fn plans_are_as_long_as_their_words_ask(rt: HostRuntime) -> Result<(), Fail> {
    for words in [1, 2, 4, 8, 16, 32] {
        same!(rt; plan_steps(End::File, End::Memory, words), 8 + 5 * words);
        same!(rt; plan_steps(End::Memory, End::File, words), 6 + 4 * words);
        same!(rt; plan_steps(End::File, End::File, words), 8 + 4 * words);
    }
    Ok(())
}
