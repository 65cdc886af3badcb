//! One comparison for all tests.
use std::fmt::Debug;
use std::process::Abort;

/// Both values are the same. Else the test ends, and shows both with what was tried.
pub fn same<T: PartialEq + Debug + Drop>(
    rt: &impl Abort,
    found: T,
    wanted: T,
    tried: impl Debug + Drop,
) {
    assert_eq!(rt; found, wanted, "{tried:?}");
}
