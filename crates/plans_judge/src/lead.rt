//! Where the stores of a producer are led.

ghost use Rattle.std.specs.Prelude.{◌≡◌, ◌&&◌, ◌||◌, not, length, slice_get};
ghost use Rattle.plans_rules.specs.Rules as rules;
ghost use Rattle.plans_rules.specs.Setting.{all_below, any_below};
ghost use Rattle.plans_judge.specs.Table.{AllAfter, calm_by, drained_after, is_calm_at, is_led_at, is_reaching_at, lead_after, lead_first, led_by, led_if_any, paused_after, reaching_by};

use plans_rules::{AnyStep, RouteKind};

/// What the steps so far have made of a producer's route.
#[derive(Clone, Copy)]
pub(crate) struct Lead {
    pub(crate) kind: RouteKind,

    /// It leads to the new place, as it is written.
    pub(crate) turned: bool,

    /// A fence stood after that.
    pub(crate) fenced: bool,

    /// It was switched.
    pub(crate) switched: bool,

    /// The producer is paused.
    pub(crate) paused: bool,

    /// The route is in force, and no store of the producer is in flight to the old place.
    pub(crate) drained: bool,
}

impl Lead {
    /// Gives what is known of a producer's route before the first step.
    pub(crate) fn first(kind: RouteKind) -> Lead
        ensures { result ≡ lead_first kind }
    {
        Lead {
            kind,
            turned: false,
            fenced: false,
            switched: false,
            paused: false,
            drained: false,
        }
    }

    /// Tells whether all that the producer stores from now on goes to the new place.
    fn is_led(self) -> bool
        ensures { result ≡ led_by self }
    {
        match self.kind {
            RouteKind::Routed => self.drained,
            RouteKind::Switched => self.fenced || self.switched,
        }
    }

    /// Tells whether the producer stores nothing into the old place.
    fn is_calm(self) -> bool
        ensures { result ≡ calm_by self }
    {
        self.is_led() || self.paused
    }

    /// Tells whether it may store into the new place.
    fn is_reaching(self) -> bool
        ensures { result ≡ reaching_by self }
    {
        self.turned && !self.paused
    }

    /// Tells whether producer `place` is paused after a step.
    fn paused_after(self, step: AnyStep, place: usize) -> bool
        ensures { result ≡ paused_after step place self }
    {
        pauses(step, place) || !resumes(step, place) && self.paused
    }

    /// Tells whether the route of producer `place` is in force after a step, with none of its
    /// stores in flight to the old place.
    fn drained_after(self, step: AnyStep, place: usize) -> bool
        ensures { result ≡ drained_after step place self }
    {
        fences(step, place) && self.turned
            || pauses(step, place) && (self.fenced || self.switched)
            || switches(step, place) && self.paused
            || self.drained
    }

    /// Gives what a step makes of the route of producer `place`.
    fn after(self, step: AnyStep, place: usize) -> Lead
        ensures { result ≡ lead_after step place self }
    {
        Lead {
            kind: self.kind,
            turned: turns(step, place) || self.turned,
            fenced: if fences(step, place) {
                self.turned || self.fenced
            } else {
                self.fenced
            },
            switched: switches(step, place) || self.switched,
            paused: self.paused_after(step, place),
            drained: self.drained_after(step, place),
        }
    }
}

/// Tells whether a step writes the route of producer `place`.
fn turns(step: AnyStep, place: usize) -> bool
    ensures { result ≡ rules.turns place step }
{
    match step {
        AnyStep::Route(p) | AnyStep::Switch(p) => p as usize == place,
        _ => false,
    }
}

/// Tells whether a step puts the route of producer `place` in force.
fn fences(step: AnyStep, place: usize) -> bool
    ensures { result ≡ rules.fences place step }
{
    match step {
        AnyStep::Fence(p) => p as usize == place,
        _ => false,
    }
}

/// Tells whether a step does both at once.
fn switches(step: AnyStep, place: usize) -> bool
    ensures { result ≡ rules.switches place step }
{
    match step {
        AnyStep::Switch(p) => p as usize == place,
        _ => false,
    }
}

/// Tells whether a step pauses producer `place`.
fn pauses(step: AnyStep, place: usize) -> bool
    ensures { result ≡ rules.pauses place step }
{
    match step {
        AnyStep::Pause(p) => p as usize == place,
        _ => false,
    }
}

/// Tells whether a step resumes it.
fn resumes(step: AnyStep, place: usize) -> bool
    ensures { result ≡ rules.resumes place step }
{
    match step {
        AnyStep::Resume(p) => p as usize == place,
        _ => false,
    }
}

/// Makes of all routes what a step makes of them.
pub(crate) fn lead_all(leads: &mut [Lead], step: AnyStep)
    ensures { AllAfter (lead_after step) leads.old leads.new }
{
    for place in 0..leads.len() {
        leads[place] = leads[place].after(step, place);
    }
}

/// Tells whether all producers are led to the new place.
pub(crate) fn all_led(leads: &[Lead]) -> bool
    ensures { result ≡ all_below (is_led_at leads.now) (length leads.now) }
{
    let mut holds = true;
    for place in 0..leads.len() {
        holds = leads[place].is_led() && holds;
    }
    holds
}

/// Tells whether producer `place` is led to the new place, if there is such a one.
pub(crate) fn led_if_any(leads: &[Lead], place: usize) -> bool
    ensures { result ≡ led_if_any (slice_get leads.now place) }
{
    match leads.get(place) {
        None => true,
        Some(lead) => lead.is_led(),
    }
}

/// Tells whether no producer stores into the old place.
pub(crate) fn all_calm(leads: &[Lead]) -> bool
    ensures { result ≡ all_below (is_calm_at leads.now) (length leads.now) }
{
    let mut holds = true;
    for place in 0..leads.len() {
        holds = leads[place].is_calm() && holds;
    }
    holds
}

/// Tells whether any producer may store into the new place.
pub(crate) fn any_reaching(leads: &[Lead]) -> bool
    ensures { result ≡ any_below (is_reaching_at leads.now) (length leads.now) }
{
    let mut holds = false;
    for place in 0..leads.len() {
        holds = leads[place].is_reaching() || holds;
    }
    holds
}
