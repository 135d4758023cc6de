//! What is answered of a plan that may leave its host untold.

ghost use Rattle.std.specs.Prelude.{◌≡◌, ◌++◌, OnOk, Some, map, true, false};
ghost use Rattle.plans_text.specs.PlanFile as file;
ghost use Rattle.plans_text.specs.PlanFile.{place_of};

use crate::answer::{push_none, push_number, push_store};
use crate::draft::Mark;
use plans_counterexamples::{Store, UntoldRun};
use plans_judge::NumberSpot;
use std::alloc::AllocError;

/// Gives the words for where a number is.
fn spot_word(spot: NumberSpot) -> &'static [u8]
    ensures { result.now ≡ file.spot_word spot }
{
    match spot {
        NumberSpot::InOld => b" in the old place",
        NumberSpot::InHand => b" in the hand",
        NumberSpot::InNew => b" in the new place",
    }
}

/// Appends words. `Err`: there is no memory for them.
pub(crate) fn push_words(out: &mut Vec<u8>, words: &[u8]) -> Result<(), AllocError>
    ensures { OnOk result (out.new.items ≡ out.old.items ++ words.now) }
{
    out.extend_from_slice(words)
}

/// Appends the words for where a number is. `Err`: there is no memory for them.
fn push_spot(out: &mut Vec<u8>, spot: NumberSpot) -> Result<(), AllocError>
    ensures { OnOk result (out.new.items ≡ out.old.items ++ file.spot_word spot) }
{
    out.extend_from_slice(spot_word(spot))
}

/// Appends the store of an untold run, or that there is none. `Err`: there is no memory for it.
fn push_store_of(out: &mut Vec<u8>, marks: &[Mark], store: Option<Store>) -> Result<(), AllocError>
    ensures { OnOk result (out.new.items
        ≡ out.old.items ++ file.store_text (map place_of marks.now) store) }
{
    match store {
        None => out.extend_from_slice(b", and pending there"),
        Some(store) => push_store(out, marks, store.producer, store.before, store.route),
    }
}

/// Appends the threshold at the start. `Err`: there is no memory for it.
fn push_threshold(out: &mut Vec<u8>, threshold: Option<NumberSpot>) -> Result<(), AllocError>
    ensures { OnOk result (out.new.items
        ≡ out.old.items ++ file.threshold_text threshold) }
{
    match threshold {
        None => out.extend_from_slice(b"1 everywhere"),
        Some(spot) => {
            out.extend_from_slice(b"0")?;
            push_spot(out, spot)?;
            out.extend_from_slice(b" and 1 elsewhere")
        }
    }
}

/// Appends delivery at the start. `Err`: there is no memory for it.
fn push_delivery(out: &mut Vec<u8>, spot: NumberSpot) -> Result<(), AllocError>
    ensures { OnOk result (out.new.items ≡ out.old.items ++ file.delivery_text spot) }
{
    out.extend_from_slice(b"; at the start delivery is 1")?;
    push_spot(out, spot)?;
    push_words(out, b" and 0 elsewhere, and the threshold is ")
}

/// Appends the numbers of an untold run, and how it ends. `Err`: there is no memory for it.
fn push_let_through(out: &mut Vec<u8>, run: UntoldRun) -> Result<(), AllocError>
    ensures { OnOk result (out.new.items ≡ out.old.items ++ file.untold_end_text true run) }
{
    push_delivery(out, run.delivery)?;
    push_threshold(out, run.threshold)?;
    out.extend_from_slice(
        b"; in the end it is pending, enabled and let through in the new place, \
and the host was not told, or that was taken back",
    )
}

/// Appends how an untold run ends. `Err`: there is no memory for it.
fn push_end(out: &mut Vec<u8>, heeds: bool, run: UntoldRun) -> Result<(), AllocError>
    ensures { OnOk result (out.new.items ≡ out.old.items ++ file.untold_end_text heeds run) }
{
    if heeds {
        return push_let_through(out, run);
    }
    out.extend_from_slice(
        b"; in the end it is pending and enabled in the new place, \
and the host was not told, or that was taken back",
    )
}

/// Appends how an untold run begins. `Err`: there is no memory for it.
fn push_begin(out: &mut Vec<u8>, run: UntoldRun) -> Result<(), AllocError>
    ensures { OnOk result (out.new.items ≡ out.old.items ++ file.untold_begin_text run) }
{
    out.extend_from_slice(b"\n  run: identity ")?;
    push_number(out, run.identity)?;
    push_words(out, b" is enabled in the old place at the start")
}

/// Appends an untold run in a line of its own. `Err`: there is no memory for it.
fn push_untold_run(
    out: &mut Vec<u8>,
    marks: &[Mark],
    heeds: bool,
    run: UntoldRun,
) -> Result<(), AllocError>
    ensures { OnOk result (out.new.items
        ≡ out.old.items ++ file.untold_text (map place_of marks.now) heeds (Some run)) }
{
    push_begin(out, run)?;
    push_store_of(out, marks, run.store)?;
    push_end(out, heeds, run)
}

/// Appends an untold run, or that none was found. `Err`: there is no memory for it.
pub(crate) fn push_untold(
    out: &mut Vec<u8>,
    marks: &[Mark],
    heeds: bool,
    run: Option<UntoldRun>,
) -> Result<(), AllocError>
    ensures { OnOk result (out.new.items
        ≡ out.old.items ++ file.untold_text (map place_of marks.now) heeds run) }
{
    match run {
        None => {
            push_none(out)?;
            out.extend_from_slice(b"; the rule may ask for more than that the host is told")
        }
        Some(run) => push_untold_run(out, marks, heeds, run),
    }
}
