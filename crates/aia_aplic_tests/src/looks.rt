//! What a test looks at. A look is one call, so that a test stays small for the prover and for the
//! compiler.

use std::fmt::Debug;
use std::process::Abort;

/// Ends the test where it got another value than it wants.
pub(crate) fn is_same<T: Copy + PartialEq + Debug>(rt: &impl Abort, got: T, want: T) {
    assert_eq!(rt; got, want);
}

/// Ends the test where it got another value than it wants in this case of a table.
pub(crate) fn is_same_in<T: Copy + PartialEq + Debug, C: Copy + Debug>(
    rt: &impl Abort,
    got: T,
    want: T,
    case: C,
) {
    assert_eq!(rt; got, want, "in the case {case:?}");
}

/// Ends the test where a fact does not hold.
pub(crate) fn holds(rt: &impl Abort, fact: bool) {
    assert!(rt; fact);
}

/// `same!(rt; got, want)`, and `same!(rt; got, want; case)` in a table.
#[macro_export]
macro_rules! same {
    ($rt:expr; $got:expr, $want:expr) => {
        $crate::looks::is_same(&$rt, $got, $want)
    };
    ($rt:expr; $got:expr, $want:expr; $case:expr) => {
        $crate::looks::is_same_in(&$rt, $got, $want, $case)
    };
}
