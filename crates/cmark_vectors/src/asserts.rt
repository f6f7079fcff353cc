//! Assertions and comparisons of all the tests, proved once for values of all types.
use std::alloc::AllocError;
use std::convert::AsStr;
use std::fmt::Debug;
use std::process::Abort;

/// What a call answers on a text, or on another row of a table, is this.
pub(crate) fn assert_answer<R: Debug, T: Debug + Drop + PartialEq>(
    rt: &impl Abort,
    row: &R,
    found: T,
    expected: T,
) {
    assert_eq!(rt; found, expected, "of {row:?}");
}

pub(crate) fn assert_same<T: Debug + Drop + PartialEq>(rt: &impl Abort, found: T, expected: T) {
    assert_eq!(rt; found, expected);
}

/// What a call makes. The test stops where memory is refused.
pub(crate) fn made<T>(rt: &impl Abort, value: Result<T, AllocError>) -> T {
    value.expect(rt, "memory")
}

/// A text that a call makes is this; it is dropped here.
pub(crate) fn assert_text<T: AsStr + Drop>(
    rt: &impl Abort,
    text: Result<T, AllocError>,
    expected: &str,
) {
    assert_same(rt, made(rt, text).as_str(), expected);
}

/// The elements of a list that a call makes are these.
pub(crate) fn assert_elements<T: Debug + Drop + PartialEq>(
    rt: &impl Abort,
    elements: Result<Vec<T>, AllocError>,
    expected: &[T],
) {
    assert_same(rt, made(rt, elements).as_slice(), expected);
}

/// Whether the values are equal. What they own is dropped here, and not in each test.
pub(crate) fn are_same<T: Drop + PartialEq>(one: T, other: T) -> bool {
    one == other
}

pub(crate) fn are_different<T: Drop + PartialEq>(one: T, other: T) -> bool {
    one != other
}
