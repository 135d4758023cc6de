ghost use Rattle.std.specs.Prelude.{◌≡◌, ◌<◌, ◌≤◌, [], ◌∷◌, length, reverse, drop, not, slice_get, true, false, IfOk};
ghost use Rattle.std.specs.Option.{option_map_or};
ghost use Rattle.std.specs.List.Sorted.{IsPartitionPoint};
ghost use Rattle.aia_domain.specs.Order.{comes_before, IsRising, is_pair, put_in, taken_out};

use std::alloc::{AllocError, Global};
use std::marker::Model;

/// The candidates of a hart: pairs of a priority and a source's number in rising order, by priority
/// and then by number. Room for them is taken when it is made; no other call may lack memory.
///
/// AIA 1.0, APLIC, "Interrupt delivery directly by the APLIC".
#[derive(Drop)]
pub struct Candidates {
    /// In falling order, so that the least one, which a claim takes out, stands at the end.
    falling: Vec<(u32, u32)>,
    room: usize,
}

impl Model for Candidates {
    ghost use Rattle.std.specs.Prelude.{◌≤◌, length, reverse};
    ghost use Rattle.std.specs.Vec.{vec_capacity};
    ghost use Rattle.aia_domain.specs.Order.{CandidatesState, IsRising};

    ghost Value = { CandidatesState };

    ghost view = { λ c. record { room = c.room; pairs = reverse c.falling.items } };

    ghost invariant = { λ c. (c.room ≤ vec_capacity c.falling)
        × (length c.falling.items ≤ c.room) × IsRising (reverse c.falling.items) };
}

impl Candidates {
    /// Makes a list of no pairs, with room for so many. `Err`: there is no memory for them.
    pub fn new(alloc: Global, room: usize) -> Result<Candidates, AllocError>
        ensures { IfOk result (λ c. c ≡ record { room = room; pairs = [] }) }
    {
        let falling = Vec::with_capacity(alloc, room)?;
        Ok(Candidates { falling, room })
    }

    /// Gives the pair at a place, counted from 0: its priority and its number; `None` exactly past
    /// the end.
    pub fn at(&self, place: usize) -> Option<(u32, u32)>
        ensures pair { result ≡ slice_get self.now.pairs place }
        ensures rising { IsRising self.now.pairs }
    {
        let end = self.falling.len();
        if place < end {
            Some(self.falling[end - 1 - place])
        } else {
            None
        }
    }

    /// Puts a pair at its place, after those that come before it. There is room for it.
    #[inline(always)]
    pub fn put(&mut self, pair: (u32, u32))
        requires room { length self.old.pairs < self.old.room }
        ensures { self.new ≡ record self.old { pairs = put_in pair self.old.pairs } }
    {
        if self.goes_first(pair) {
            self.put_first(pair);
        } else {
            self.put_within(pair);
        }
    }

    /// Takes the first pair that is this one out, where there is one.
    #[inline(always)]
    pub fn take_out(&mut self, pair: (u32, u32))
        ensures { self.new ≡ record self.old { pairs = taken_out pair self.old.pairs } }
    {
        if self.is_first(pair) {
            self.take_first();
        } else {
            self.take_within(pair);
        }
    }

    /// Tells whether a pair's place is ahead of all others.
    fn goes_first(&self, pair: (u32, u32)) -> bool
        ensures { result
            ≡ option_map_or (λ q. not (comes_before q pair)) (slice_get self.now.pairs 0) true }
    {
        match self.at(0) {
            Some(first) => !comes_before(first, pair),
            None => true,
        }
    }

    /// Puts a pair whose place is ahead of all others.
    fn put_first(&mut self, pair: (u32, u32))
        requires room { length self.old.pairs < self.old.room }
        requires first { put_in pair self.old.pairs ≡ pair ∷ self.old.pairs }
        ensures { self.new ≡ record self.old { pairs = pair ∷ self.old.pairs } }
    {
        self.falling.push_reserved(pair);
    }

    /// Puts a pair at its place, which is looked for.
    #[inline(never)]
    fn put_within(&mut self, pair: (u32, u32))
        requires room { length self.old.pairs < self.old.room }
        ensures { self.new ≡ record self.old { pairs = put_in pair self.old.pairs } }
    {
        let place = place_of(&self.falling, pair);
        match self.falling.insert(place, pair) {
            Ok(()) => {}
            Err(_) => unreachable!(),
        }
    }

    /// Tells whether a pair stands ahead of all others.
    fn is_first(&self, pair: (u32, u32)) -> bool
        ensures { result ≡ option_map_or (is_pair pair) (slice_get self.now.pairs 0) false }
    {
        match self.at(0) {
            Some(first) => pair == first,
            None => false,
        }
    }

    /// Takes the first pair out, where there is one.
    fn take_first(&mut self)
        ensures { self.new ≡ record self.old { pairs = drop 1 self.old.pairs } }
    {
        let _pair = self.falling.pop();
    }

    /// Takes a pair out, which is looked for, where it stands there.
    #[inline(never)]
    fn take_within(&mut self, pair: (u32, u32))
        ensures { self.new ≡ record self.old { pairs = taken_out pair self.old.pairs } }
    {
        let place = place_of(&self.falling, pair);
        if place > 0 && pair == self.falling[place - 1] {
            let _pair = self.falling.remove(place - 1);
        }
    }

    /// Takes all pairs out.
    pub fn clear(&mut self)
        ensures { self.new ≡ record self.old { pairs = [] } }
    {
        self.falling.clear();
    }
}

/// Gives the place after all pairs that don't come before this one, in falling order.
fn place_of(falling: &[(u32, u32)], pair: (u32, u32)) -> usize
    requires rising { IsRising (reverse falling.now) }
    ensures within { result ≤ length falling.now }
    ensures point { IsPartitionPoint (λ q. comes_before q pair ≡ false)
        (λ q. comes_before q pair ≡ true) falling.now result }
{
    falling.partition_point(
        |other: &(u32, u32)| -> bool
            ensures { result ≡ not (comes_before other.now pair) }
        { !comes_before(*other, pair) },
    )
}

/// Tells whether a pair comes before another: by priority, then by number.
fn comes_before(first: (u32, u32), second: (u32, u32)) -> bool
    ensures { result ≡ comes_before first second }
{
    first.0 < second.0 || (first.0 == second.0 && first.1 < second.1)
}
