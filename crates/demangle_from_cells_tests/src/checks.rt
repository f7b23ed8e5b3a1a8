//! The assertion that is written out once, since each one is dear to prove where it stands.

use std::fmt::Debug;
use std::process::Abort;

/// Ends the test where what is found at a case is other than what is wanted there.
pub(crate) fn same<C: Debug + Drop, X: PartialEq + Debug + Drop>(
    rt: &impl Abort,
    case: C,
    found: X,
    wanted: X,
) {
    assert_eq!(rt; found, wanted, "at {case:?}");
}
