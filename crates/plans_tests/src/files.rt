//! What is answered of files of plans, by the rows that are laws too.

use plans_counterexamples::{losing_run, untold_run};
use plans_judge::{AnyStep, Judgement, NumberSpot, RouteKind, Rule, Terms, judge};
use plans_text::{FileOutcome, PlanLine, Reading, answers, parse_line};
use std::alloc::{AllocError, Global};
use std::test::Fail;

/// A plan of one word and one producer with a route that keeps all rules.
const GOOD: &[u8] = b"fresh\nproducer routed\nnumbers old old\nroute 0\nfence 0\n\
take pending 0\njoin pending 0\ntake enabled 0\njoin enabled 0\n";

/// The same with its fence left out.
const UNFENCED: &[u8] = b"fresh\nproducer routed\nnumbers old old\nroute 0\n\
take pending 0  # too early\njoin pending 0\ntake enabled 0\njoin enabled 0\n";

#[test]
fn a_plan_that_keeps_all_rules_is_accepted(rt: HostRuntime) -> Result<(), Fail> {
    let found = answers(rt.alloc(), GOOD)?;
    assert!(rt; found.text.as_slice() == b"accepted\n".as_slice());
    Ok(())
}

#[test]
fn one_without_its_fence_is_refused_and_loses_what_is_stored(rt: HostRuntime) -> Result<(), Fail> {
    let found = answers(rt.alloc(), UNFENCED)?;
    assert!(rt;
        found.text.as_slice()
            == b"refused routes in the end\n  run: identity 1 is pending \
nowhere at the start; producer 0 stores it behind line 8 by its route in force; in the end it is \
in the old place, where the route of producer 0 leads still\n"
                .as_slice()
    );
    Ok(())
}

/// A plan into memory that looks before its enables are there.
const LOOKED_EARLY: &[u8] = b"fresh\nmemory\nnumbers old old\ntake pending 0\njoin pending 0\n\
look 0\ntake enabled 0\njoin enabled 0\npost\n";

#[test]
fn one_that_looks_early_leaves_what_is_pending_untold(rt: HostRuntime) -> Result<(), Fail> {
    let found = answers(rt.alloc(), LOOKED_EARLY)?;
    assert!(rt;
        found.text.as_slice()
            == b"refused notice in the end\n  run: identity 1 is enabled in the old place at the \
start, and pending there; in the end it is pending and enabled in the new place, and the host was \
not told, or that was taken back\n"
                .as_slice()
    );
    Ok(())
}

/// One that takes a word a second time, once its route is in force, and does not tell of that.
const TOLD_ONCE: &[u8] = b"fresh\nmemory\nproducer routed\nnumbers old old\ntake enabled 0\n\
join enabled 0\ntake pending 0\njoin pending 0\ntell\nroute 0\nfence 0\ntake pending 0\n\
join pending 0\n";

#[test]
fn one_that_tells_once_leaves_a_store_untold(rt: HostRuntime) -> Result<(), Fail> {
    let found = answers(rt.alloc(), TOLD_ONCE)?;
    assert!(rt;
        found.text.as_slice()
            == b"refused notice in the end\n  run: identity 1 is enabled in the old place at the \
start; producer 0 stores it behind line 7 by its route in force; in the end it is pending and \
enabled in the new place, and the host was not told, or that was taken back\n"
                .as_slice()
    );
    Ok(())
}

/// A plan into memory whose notices go nowhere at the start, up to where all is there.
const UNSET: &[u8] = b"fresh\nmemory\nnotices unset\nproducer routed\nnumbers old old\nroute 0\n\
fence 0\ntake pending 0\njoin pending 0\ntake enabled 0\njoin enabled 0\n";

/// What is answered of such a plan with a store after line 12 that nobody is told of.
const UNTOLD_BEHIND_LINE_12: &[u8] = b"refused notice in the end\n  run: identity 1 is enabled in \
the old place at the start; producer 0 stores it behind line 12 by its route in force; in the end \
it is pending and enabled in the new place, and the host was not told, or that was taken back\n";

/// Tells whether such a plan that goes on by other steps is answered so.
fn is_answered(alloc: Global, steps: &[u8], answer: &[u8]) -> Result<bool, AllocError> {
    let mut file = Vec::new(alloc);
    file.extend_from_slice(UNSET)?;
    file.extend_from_slice(steps)?;
    let found = answers(alloc, &file)?;
    Ok(found.text.as_slice() == answer)
}

#[test]
fn where_notices_go_nowhere_a_store_behind_the_look_is_untold(rt: HostRuntime) -> Result<(), Fail> {
    let never = is_answered(rt.alloc(), b"look 0\npost\n", UNTOLD_BEHIND_LINE_12)?;
    assert!(rt; never);
    let late = b"look 0\nwrite notice\npost\n";
    let is_late = is_answered(rt.alloc(), late, UNTOLD_BEHIND_LINE_12)?;
    assert!(rt; is_late);
    let first = is_answered(rt.alloc(), b"write notice\nlook 0\npost\n", b"accepted\n")?;
    assert!(rt; first);
    Ok(())
}

#[test]
fn and_so_is_one_behind_the_last_step(rt: HostRuntime) -> Result<(), Fail> {
    let never = is_answered(rt.alloc(), b"tell\n", UNTOLD_BEHIND_LINE_12)?;
    assert!(rt; never);
    let late = is_answered(rt.alloc(), b"tell\nwrite notice\n", UNTOLD_BEHIND_LINE_12)?;
    assert!(rt; late);
    let first = is_answered(rt.alloc(), b"write notice\ntell\n", b"accepted\n")?;
    assert!(rt; first);
    Ok(())
}

/// One that puts a threshold which is heeded after it tells.
const PUT_LATE: &[u8] = b"fresh\nmemory\nheeds\ntake threshold\ntake delivery\nput delivery\n\
take pending 0\njoin pending 0\ntake enabled 0\njoin enabled 0\ntell\nput threshold\n";

#[test]
fn a_threshold_that_is_put_late_lets_through_untold(rt: HostRuntime) -> Result<(), Fail> {
    let found = answers(rt.alloc(), PUT_LATE)?;
    assert!(rt;
        found.text.as_slice()
            == b"refused notice in the end\n  run: identity 1 is enabled in the old place at the \
start, and pending there; at the start delivery is 1 in the old place and 0 elsewhere, and the \
threshold is 0 in the old place and 1 elsewhere; in the end it is pending, enabled and let through \
in the new place, and the host was not told, or that was taken back\n"
                .as_slice()
    );
    Ok(())
}

/// The same with the threshold of the new place zeroed first: what stands out was told of.
const ZEROED_FIRST: &[u8] = b"fresh\nmemory\nheeds\nzero new threshold\ntake threshold\n\
take delivery\nput delivery\ntake pending 0\njoin pending 0\ntake enabled 0\n\
join enabled 0\ntell\nput threshold\n";

#[test]
fn where_no_run_is_found_the_rule_may_ask_for_more(rt: HostRuntime) -> Result<(), Fail> {
    let found = answers(rt.alloc(), ZEROED_FIRST)?;
    assert!(rt;
        found.text.as_slice()
            == b"refused notice in the end\n  run: none was found among those that are tried; the \
rule may ask for more than that the host is told\n"
                .as_slice()
    );
    Ok(())
}

/// One that leaves a store untold which was in flight as its route was switched: it lands after
/// the tell. No such run is tried.
const IN_FLIGHT: &[u8] = b"fresh\nmemory\nproducer routed\nnumbers old old\ntake enabled 0\n\
join enabled 0\nswitch 0\ntake pending 0\njoin pending 0\ntell\nfence 0\ntake pending 0\n\
join pending 0\n";

#[test]
fn a_run_with_a_store_in_flight_is_not_tried(rt: HostRuntime) -> Result<(), Fail> {
    let found = answers(rt.alloc(), IN_FLIGHT)?;
    assert!(rt;
        found.text.as_slice()
            == b"refused notice in the end\n  run: none was found among those that are tried; the \
rule may ask for more than that the host is told\n"
                .as_slice()
    );
    Ok(())
}

/// One that zeroes delivery once it has come, and puts it again.
const SHUT_AGAIN: &[u8] = b"producer routed\nfresh\nheeds\nroute 0\nfence 0\ntake pending 0\n\
join pending 0\ntake enabled 0\njoin enabled 0\ntake delivery\ntake threshold\nput threshold\n\
put delivery\nzero new delivery\nput delivery\n";

#[test]
fn what_has_come_is_heeded_in_memory_alone(rt: HostRuntime) -> Result<(), Fail> {
    let mut file = Vec::new(rt.alloc());
    file.extend_from_slice(SHUT_AGAIN)?;
    file.extend_from_slice(b"plan\nmemory\n")?;
    file.extend_from_slice(SHUT_AGAIN)?;
    let found = answers(rt.alloc(), &file)?;
    assert!(rt;
        found.text.as_slice()
            == b"accepted\nrefused notice in the end\n  run: identity 1 is \
enabled in the old place at the start, and pending there; at the start delivery is 1 in the old \
place and 0 elsewhere, and the threshold is 0 in the old place and 1 elsewhere; in the end it is \
pending, enabled and let through in the new place, and the host was not told, or that was \
taken back\n"
                .as_slice()
    );
    Ok(())
}

/// A plan into memory that tells of copies before it zeroes the old place.
const TOLD_OF_COPIES: &[u8] = b"fresh\nmemory\nproducer routed\nnumbers old old\nroute 0\nfence 0\n\
copy pending 0\njoin pending 0\ncopy enabled 0\njoin enabled 0\ntell\n";

/// What it goes on by.
const ZEROED: &[u8] = b"zero old pending 0\nzero old enabled 0\n";

#[test]
fn copies_may_be_told_of_before_the_old_place_is_zeroed(rt: HostRuntime) -> Result<(), Fail> {
    let mut file = Vec::new(rt.alloc());
    file.extend_from_slice(TOLD_OF_COPIES)?;
    file.extend_from_slice(ZEROED)?;
    let is_accepted = answers_so(rt.alloc(), &file, b"accepted\n")?;
    assert!(rt; is_accepted);
    let mut again = Vec::new(rt.alloc());
    again.extend_from_slice(TOLD_OF_COPIES)?;
    again.extend_from_slice(b"zero new enabled 0\ncopy enabled 0\njoin enabled 0\n")?;
    again.extend_from_slice(ZEROED)?;
    let untold = b"refused notice in the end\n  run: identity 1 is enabled in the old place at the \
start; producer 0 stores it behind line 12 by its route in force; in the end it is pending and \
enabled in the new place, and the host was not told, or that was taken back\n";
    let is_untold = answers_so(rt.alloc(), &again, untold)?;
    assert!(rt; is_untold);
    Ok(())
}

#[test]
fn what_a_store_tells_is_lost_where_it_is_taken_back(rt: HostRuntime) -> Result<(), Fail> {
    let mut file = Vec::new(rt.alloc());
    file.extend_from_slice(TOLD_OF_COPIES)?;
    file.extend_from_slice(ZEROED)?;
    file.extend_from_slice(b"look 0\npost\nuntell\n")?;
    let untold = b"refused notice in the end\n  run: identity 1 is enabled in the old place at the \
start; producer 0 stores it behind line 14 by its route in force; in the end it is pending and \
enabled in the new place, and the host was not told, or that was taken back\n";
    let is_lost = answers_so(rt.alloc(), &file, untold)?;
    assert!(rt; is_lost);
    file.extend_from_slice(b"look 0\npost\n")?;
    let is_kept = answers_so(rt.alloc(), &file, b"accepted\n")?;
    assert!(rt; is_kept);
    Ok(())
}

#[test]
fn bad_lines_are_named_by_their_numbers(rt: HostRuntime) -> Result<(), Fail> {
    let found = answers(
        rt.alloc(),
        b"# a plan\nwords 2\n\ntake pending 2\nplan\nroute 0",
    )?;
    assert!(rt; found.text.as_slice() == b"bad line 4\nbad line 6\n".as_slice());
    Ok(())
}

#[test]
fn lines_are_read(rt: HostRuntime) {
    assert!(rt; parse_line(b"  words   32  # of 64") == Reading::Line(PlanLine::Words(32)));
    assert!(rt; parse_line(b"# nothing") == Reading::Skip);
    assert!(rt; parse_line(b"words 100") == Reading::Bad);
    assert!(rt; parse_line(b"join threshold") == Reading::Bad);
    assert!(rt; parse_line(b"write notice") == Reading::Line(PlanLine::Step(AnyStep::WriteNotice)));
    assert!(rt; parse_line(b"untell") == Reading::Line(PlanLine::Step(AnyStep::Untell)));
    assert!(rt; parse_line(b"untell 0") == Reading::Bad);
    assert!(rt; parse_line(b"pause 2 # it") == Reading::Line(PlanLine::Step(AnyStep::Pause(2))));
    assert!(rt; parse_line(b"resume 15") == Reading::Line(PlanLine::Step(AnyStep::Resume(15))));
    assert!(rt; parse_line(b"pause") == Reading::Bad);
    assert!(rt; parse_line(b"resume 0 1") == Reading::Bad);
    assert!(rt; parse_line(b"write") == Reading::Bad);
    assert!(rt; parse_line(b"write notice 0") == Reading::Bad);
    assert!(rt; parse_line(b"notices unset # yet") == Reading::Line(PlanLine::NoticesUnset));
    assert!(rt; parse_line(b"notices") == Reading::Bad);
    assert!(rt; parse_line(b"notices set") == Reading::Bad);
}

#[test]
fn a_plan_that_forgets_its_words_is_refused_in_the_end(rt: HostRuntime) -> Result<(), Fail> {
    let terms = Terms {
        words: 1,
        is_fresh: true,
        in_memory: false,
        heeds: false,
        notices_go: true,
        is_inherited: false,
        number_from: NumberSpot::InOld,
        number_to: NumberSpot::InOld,
    };
    let plan = [AnyStep::Route(0), AnyStep::Fence(0)];
    let verdict = judge(rt.alloc(), &[RouteKind::Routed], terms, &plan)?;
    let refused = Judgement::Refused {
        rule: Rule::Routes,
        before: 2,
    };
    assert!(rt; verdict == refused);
    assert!(rt; losing_run(Rule::Routes, &[RouteKind::Routed], terms, &plan, 2).is_some());
    assert!(rt; untold_run(&[RouteKind::Routed], terms, &plan).is_none());
    Ok(())
}

/// What comes of the plans of a file.
fn outcome_of(alloc: Global, file: &[u8]) -> Result<FileOutcome, AllocError> {
    let found = answers(alloc, file)?;
    Ok(found.outcome)
}

/// Tells whether a file is answered so.
fn answers_so(alloc: Global, file: &[u8], answer: &[u8]) -> Result<bool, AllocError> {
    let found = answers(alloc, file)?;
    Ok(found.text.as_slice() == answer)
}

/// A word that is read and then cleared is lost what is stored between the two.
#[test]
fn a_word_that_is_copied_while_it_is_stored_is_refused(rt: HostRuntime) -> Result<(), Fail> {
    let early = b"fresh\nproducer routed\nnumbers old old\nroute 0\ncopy pending 0\nfence 0\n\
zero old pending 0\njoin pending 0\n";
    let lost =
        b"refused words at line 7: zero old pending 0\n  run: identity 1 is pending nowhere at \
the start; producer 0 stores it behind line 5 by its route in force; in the end it is nowhere: it \
is lost\n";
    let is_lost = answers_so(rt.alloc(), early, lost)?;
    assert!(rt; is_lost);
    let late = b"fresh\nproducer routed\nnumbers old old\nroute 0\nfence 0\ncopy pending 0\n\
zero old pending 0\njoin pending 0\ncopy enabled 0\nput enabled 0\nzero old enabled 0\n";
    let is_kept = answers_so(rt.alloc(), late, b"accepted\n")?;
    assert!(rt; is_kept);
    Ok(())
}

/// What is read while its producer is paused is whole, if that is resumed once its route is in
/// force.
#[test]
fn a_producer_is_paused(rt: HostRuntime) -> Result<(), Fail> {
    let early = b"fresh\nproducer routed\nnumbers old old\npause 0\ntake pending 0\nput pending 0\n\
take enabled 0\nput enabled 0\nroute 0\nresume 0\nfence 0\n";
    let left =
        b"refused routes in the end\n  run: identity 1 is pending nowhere at the start; producer 0 \
stores it behind line 10 by its route in force; in the end it is in the old place, since line 5 \
takes its word too early\n";
    let is_left = answers_so(rt.alloc(), early, left)?;
    assert!(rt; is_left);
    let late = b"fresh\nproducer routed\nnumbers old old\npause 0\ntake pending 0\nput pending 0\n\
take enabled 0\nput enabled 0\nroute 0\nfence 0\nresume 0\n";
    let is_kept = answers_so(rt.alloc(), late, b"accepted\n")?;
    assert!(rt; is_kept);
    let never = b"fresh\nproducer routed\nnumbers old old\npause 0\ntake pending 0\nput pending 0\n\
take enabled 0\nput enabled 0\nroute 0\n";
    let unled =
        b"refused routes in the end\n  run: identity 1 is pending nowhere at the start; in the end \
the route in force of producer 0 leads to the old place still\n";
    let is_unled = answers_so(rt.alloc(), never, unled)?;
    assert!(rt; is_unled);
    Ok(())
}

/// A store that overwrites another one was made before its producer was paused.
#[test]
fn no_store_is_shown_of_a_producer_that_is_paused(rt: HostRuntime) -> Result<(), Fail> {
    let put = b"fresh\nproducer routed\nnumbers old old\nroute 0\nfence 0\npause 0\n\
zero new pending 0\ntake pending 0\nput pending 0\n";
    let lost =
        b"refused words at line 7: zero new pending 0\n  run: identity 1 is pending nowhere at \
the start; producer 0 stores it behind line 5 by its written route; in the end it is nowhere: it \
is lost\n";
    let is_lost = answers_so(rt.alloc(), put, lost)?;
    assert!(rt; is_lost);
    let freed = b"words 1\nproducer switched\nnumbers old old\npause 0\nfree\nresume 0\n\
switch 0\n";
    let strayed =
        b"refused freeing at line 6: resume 0\n  run: identity 1 is pending nowhere at the start; \
producer 0 stores it behind line 6 by its route in force; the old place is reached after it was \
given back\n";
    let is_strayed = answers_so(rt.alloc(), freed, strayed)?;
    assert!(rt; is_strayed);
    Ok(())
}

/// A plan that moves all and gives the old place back, whose next owner takes its numbers over.
const INHERITED: &[u8] = b"fresh\ninherited\ntake pending 0\njoin pending 0\ntake enabled 0\n\
join enabled 0\ntake threshold\ncopy delivery\nput threshold\nput delivery\n";

#[test]
fn what_is_left_to_the_next_owner_is_told(rt: HostRuntime) -> Result<(), Fail> {
    let mut open = Vec::new(rt.alloc());
    open.extend_from_slice(INHERITED)?;
    open.extend_from_slice(b"free\n")?;
    let left =
        b"refused freeing at line 11: free\n  run: identity 1 is enabled in the old place at \
the start; in the end delivery is left in the old place for its next owner\n";
    let is_left = answers_so(rt.alloc(), &open, left)?;
    assert!(rt; is_left);
    let mut shut = Vec::new(rt.alloc());
    shut.extend_from_slice(INHERITED)?;
    shut.extend_from_slice(b"zero old delivery\nfree\n")?;
    let is_shut = answers_so(rt.alloc(), &shut, b"accepted\n")?;
    assert!(rt; is_shut);
    Ok(())
}

#[test]
fn the_old_place_is_given_back_once(rt: HostRuntime) -> Result<(), Fail> {
    let mut twice = Vec::new(rt.alloc());
    twice.extend_from_slice(GOOD)?;
    twice.extend_from_slice(b"free\nfree\n")?;
    let strayed =
        b"refused freeing at line 11: free\n  run: identity 1 is pending in the old place \
at the start; the old place is reached after it was given back\n";
    let is_strayed = answers_so(rt.alloc(), &twice, strayed)?;
    assert!(rt; is_strayed);
    Ok(())
}

#[test]
fn a_bad_line_may_begin_a_plan(rt: HostRuntime) -> Result<(), Fail> {
    let mut file = Vec::new(rt.alloc());
    file.extend_from_slice(GOOD)?;
    file.extend_from_slice(b"plan two\nfree\nplan\nwords 2\nplan again\n")?;
    let answer =
        b"accepted\nbad line 10\nrefused routes in the end\n  run: identity 1 is pending in \
the old place at the start; in the end it is in the old place, since nothing takes its word\n\
bad line 14\n";
    let is_so = answers_so(rt.alloc(), &file, answer)?;
    assert!(rt; is_so);
    Ok(())
}

#[test]
fn no_plan_and_a_plan_have_their_outcomes(rt: HostRuntime) -> Result<(), Fail> {
    let empty = outcome_of(rt.alloc(), b"")?;
    assert!(rt; empty == FileOutcome::NoPlan);
    let comments = outcome_of(rt.alloc(), b"# nothing\n\n")?;
    assert!(rt; comments == FileOutcome::NoPlan);
    let good = outcome_of(rt.alloc(), GOOD)?;
    assert!(rt; good == FileOutcome::Accepted);
    let unfenced = outcome_of(rt.alloc(), UNFENCED)?;
    assert!(rt; unfenced == FileOutcome::Refused);
    let nonsense = outcome_of(rt.alloc(), b"nonsense")?;
    assert!(rt; nonsense == FileOutcome::BadLine);
    Ok(())
}

#[test]
fn of_many_plans_the_worst_counts(rt: HostRuntime) -> Result<(), Fail> {
    let mut file = Vec::new(rt.alloc());
    file.extend_from_slice(UNFENCED)?;
    file.extend_from_slice(b"plan\n")?;
    file.extend_from_slice(GOOD)?;
    let refused = outcome_of(rt.alloc(), &file)?;
    assert!(rt; refused == FileOutcome::Refused);
    file.extend_from_slice(b"plan\nnonsense\nplan\n")?;
    file.extend_from_slice(GOOD)?;
    let bad = outcome_of(rt.alloc(), &file)?;
    assert!(rt; bad == FileOutcome::BadLine);
    Ok(())
}
