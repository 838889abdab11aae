//! Assertions, each proved once for all tests.

use std::fmt::Debug;
use std::process::Abort;

/// What was found is what was wanted, in this case.
pub(crate) fn same<T: PartialEq + Debug + Drop>(
    rt: &impl Abort,
    found: T,
    wanted: T,
    case: impl Debug + Drop,
) {
    assert_eq!(rt; found, wanted, "{case:?}");
}

/// It is so, in this case.
pub(crate) fn is_so(rt: &impl Abort, so: bool, case: impl Debug + Drop) {
    assert!(rt; so, "{case:?}");
}
