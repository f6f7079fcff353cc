//! Assertions of all the tests, proved once for values of all types.
use std::alloc::AllocError;
use std::convert::AsStr;
use std::fmt::Debug;
use std::process::Abort;

/// A value is this.
pub(crate) fn assert_same<T: Debug + Drop + PartialEq>(rt: &impl Abort, found: T, expected: T) {
    assert_eq!(rt; found, expected);
}

/// What a call makes. The test stops where memory is refused.
pub(crate) fn made<T>(rt: &impl Abort, value: Result<T, AllocError>) -> T {
    value.expect(rt, "memory")
}

/// What a call finds. The test stops where it finds nothing.
pub(crate) fn found<T>(rt: &impl Abort, value: Option<T>) -> T {
    value.expect(rt, "nothing found")
}

/// What a call makes is this.
pub(crate) fn assert_made<T: Debug + Drop + PartialEq>(
    rt: &impl Abort,
    value: Result<T, AllocError>,
    expected: T,
) {
    assert_same(rt, made(rt, value), expected);
}

/// A text that a call makes is this; it is dropped here.
pub(crate) fn assert_text<T: AsStr + Drop>(
    rt: &impl Abort,
    text: Result<T, AllocError>,
    expected: &str,
) {
    assert_same(rt, made(rt, text).as_str(), expected);
}

/// The elements of a list that a call makes are these.
pub(crate) fn assert_elements<T: Debug + Drop + PartialEq>(
    rt: &impl Abort,
    elements: Result<Vec<T>, AllocError>,
    expected: &[T],
) {
    assert_same(rt, made(rt, elements).as_slice(), expected);
}

/// Whether a call finds nothing. What it finds is dropped here.
pub(crate) fn is_none<T: Drop>(value: Option<T>) -> bool {
    value.is_none()
}
