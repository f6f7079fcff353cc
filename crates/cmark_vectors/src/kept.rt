//! The calls that copy a value, and that make one with nothing borrowed, of all types alike.
use crate::asserts::{are_same, assert_same, made};
use markdown_values::strings::CowStr;
use markdown_values::values::{CodeBlockKind, Event, Tag};
use std::alloc::{AllocError, Global};
use std::fmt::Debug;
use std::process::Abort;

/// A value that owns memory, made from parts that own none.
pub(crate) trait Made {
    type Parts;

    fn made(alloc: Global, parts: Self::Parts) -> Result<Self, AllocError>;
}

/// Whether the values made from these parts are equal.
pub(crate) fn are_equal_made<T: Drop + Made + PartialEq>(
    rt: &impl Abort,
    alloc: Global,
    one: T::Parts,
    other: T::Parts,
) -> bool {
    are_same(
        made(rt, T::made(alloc, one)),
        made(rt, T::made(alloc, other)),
    )
}

/// A value, a copy of it, and it with nothing borrowed.
pub(crate) trait Kept {
    fn copied(&self, alloc: Global) -> Result<Self, AllocError>;

    fn made_static(self, alloc: Global) -> Result<Self, AllocError>;
}

impl Kept for CowStr<'static> {
    fn copied(&self, alloc: Global) -> Result<CowStr<'static>, AllocError> {
        self.clone(alloc)
    }

    fn made_static(self, alloc: Global) -> Result<CowStr<'static>, AllocError> {
        self.into_static(alloc)
    }
}

impl Kept for CodeBlockKind<'static> {
    fn copied(&self, alloc: Global) -> Result<CodeBlockKind<'static>, AllocError> {
        self.clone(alloc)
    }

    fn made_static(self, alloc: Global) -> Result<CodeBlockKind<'static>, AllocError> {
        self.into_static(alloc)
    }
}

impl Kept for Tag<'static> {
    fn copied(&self, alloc: Global) -> Result<Tag<'static>, AllocError> {
        self.clone(alloc)
    }

    fn made_static(self, alloc: Global) -> Result<Tag<'static>, AllocError> {
        self.into_static(alloc)
    }
}

impl Kept for Event<'static> {
    fn copied(&self, alloc: Global) -> Result<Event<'static>, AllocError> {
        self.clone(alloc)
    }

    fn made_static(self, alloc: Global) -> Result<Event<'static>, AllocError> {
        self.into_static(alloc)
    }
}

/// A copy of a value, and the value with nothing borrowed, equal the value.
pub(crate) fn assert_kept<T: Debug + Drop + Kept + PartialEq>(
    rt: &impl Abort,
    alloc: Global,
    value: T,
) {
    let copy = made(rt, value.copied(alloc));
    assert_same(rt, &copy, &value);
    assert_same(rt, made(rt, value.made_static(alloc)), copy);
}

/// The same of the value made from these parts.
pub(crate) fn assert_made_kept<T: Debug + Drop + Kept + Made + PartialEq>(
    rt: &impl Abort,
    alloc: Global,
    parts: T::Parts,
) {
    assert_kept(rt, alloc, made(rt, T::made(alloc, parts)));
}
