//! What a run does to one identity, and what the host is told of it.

ghost use Rattle.std.specs.Prelude.{◌≡◌};
ghost use Rattle.plans_rules.specs.Rules as rules;
ghost use Rattle.plans_counterexamples.specs.Untold.{enabled_bit, pending_bit, watch_sees, watch_tells, watch_told, watch_after, watch_landed, watch_lets, watch_made, watch_out, watch_route};
ghost use Rattle.plans_counterexamples.specs.Trace.{trace_after};

use crate::trace::{Case, StoreRoute, Trace};
use plans_rules::{AnyPlace, AnyStep, Number, Terms, WhichSet};

/// What is followed of an identity: its pending bit and the threshold, its enable and delivery,
/// whether notices go to the host, whether a look saw it, and whether the host was told.
#[derive(Clone, Copy)]
pub(crate) struct Watch {
    pub(crate) pending: Trace,
    pub(crate) enabled: Trace,
    pub(crate) noticed: bool,
    pub(crate) seen: bool,
    pub(crate) told: bool,
}

/// Names the pending bit of an identity, the threshold, and a producer.
pub(crate) fn pending_bit(identity: u64, producer: usize) -> Case
    ensures { result ≡ pending_bit identity producer }
{
    Case {
        bank: WhichSet::Pending,
        identity,
        number: Number::Threshold,
        producer,
    }
}

/// Names the enable of an identity, delivery, and a producer.
pub(crate) fn enabled_bit(identity: u64, producer: usize) -> Case
    ensures { result ≡ enabled_bit identity producer }
{
    Case {
        bank: WhichSet::Enabled,
        identity,
        number: Number::Delivery,
        producer,
    }
}

/// Tells whether a step writes where notices go.
fn writes_notice(step: AnyStep) -> bool
    ensures { result ≡ rules.writes_notice step }
{
    match step {
        AnyStep::WriteNotice => true,
        _ => false,
    }
}

/// Tells whether it takes back what the host was told.
fn untells(step: AnyStep) -> bool
    ensures { result ≡ rules.untells step }
{
    match step {
        AnyStep::Untell => true,
        _ => false,
    }
}

impl Watch {
    /// Tells whether the numbers of the new place let an identity through, where they are heeded.
    fn lets(self, terms: Terms, identity: u64) -> bool
        ensures { result ≡ watch_lets terms identity self }
    {
        !terms.heeds || self.enabled.new_number && (!self.pending.new_number || identity < 1)
    }

    /// Tells whether an identity stands out in the new place.
    pub(crate) fn is_out(self, terms: Terms, identity: u64) -> bool
        ensures { result ≡ watch_out terms identity self }
    {
        self.pending.new && self.enabled.new && self.lets(terms, identity)
    }

    /// Tells where a store by one of the two routes lands.
    fn route(self, route: StoreRoute) -> AnyPlace
        ensures { result ≡ watch_route route self }
    {
        match route {
            StoreRoute::Written => self.pending.written,
            StoreRoute::InForce => self.pending.in_force,
        }
    }

    /// Gives what a store of a producer by one of the two routes makes of it: nothing if that is
    /// paused.
    pub(crate) fn made(
        self,
        terms: Terms,
        identity: u64,
        producer: usize,
        route: StoreRoute,
    ) -> Watch
        ensures { result ≡ watch_made terms identity producer route self }
    {
        if self.pending.paused {
            return self;
        }
        self.landed(terms, identity, producer, self.route(route))
    }

    /// Gives what a store makes of it, as it lands in a place.
    fn landed(self, terms: Terms, identity: u64, producer: usize, place: AnyPlace) -> Watch
        ensures { result ≡ watch_landed terms identity producer place self }
    {
        let is_out = self.enabled.new && self.lets(terms, identity);
        let is_told = place != AnyPlace::Old && self.noticed && is_out;
        Watch {
            pending: self.pending.landed(pending_bit(identity, producer), place),
            enabled: self.enabled.landed(enabled_bit(identity, producer), place),
            noticed: self.noticed,
            seen: self.seen,
            told: self.told || is_told,
        }
    }

    /// Tells whether a step looks at an identity, and it stands out.
    fn sees(self, terms: Terms, identity: u64, step: AnyStep) -> bool
        ensures { result ≡ watch_sees terms identity step self }
    {
        match step {
            AnyStep::Look(word) => word as u64 == identity / 64 && self.is_out(terms, identity),
            _ => false,
        }
    }

    /// Tells whether a step tells the host.
    fn tells(self, terms: Terms, identity: u64, step: AnyStep) -> bool
        ensures { result ≡ watch_tells terms identity step self }
    {
        match step {
            AnyStep::Post => self.seen,
            AnyStep::Tell => self.is_out(terms, identity),
            _ => false,
        }
    }

    /// Tells whether the host was told after a step.
    fn is_told_after(self, terms: Terms, identity: u64, step: AnyStep) -> bool
        ensures { result ≡ watch_told terms identity step self }
    {
        if untells(step) {
            self.told && self.seen
        } else {
            self.told || self.tells(terms, identity, step)
        }
    }

    /// Gives what a step makes of it.
    pub(crate) fn after(self, terms: Terms, identity: u64, producer: usize, step: AnyStep) -> Watch
        ensures { result ≡ watch_after terms identity producer step self }
    {
        Watch {
            pending: self.pending.after(pending_bit(identity, producer), step),
            enabled: self.enabled.after(enabled_bit(identity, producer), step),
            noticed: writes_notice(step) || self.noticed,
            seen: self.seen || self.sees(terms, identity, step),
            told: self.is_told_after(terms, identity, step),
        }
    }
}
