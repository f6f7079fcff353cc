//! Calls that stand in traits, each through its bound.
use std::alloc::{AllocError, Global};
use std::fmt::{Debug, Display};
use std::hash::{BuildHasher, BuildHasherDefault, FoldHasher, Hash};

pub(crate) fn are_equal<T: Eq>(a: &T, b: &T) -> bool {
    a == b
}

pub(crate) fn hash_of<T: Hash>(value: &T) -> u64 {
    let hasher: BuildHasherDefault<FoldHasher> = BuildHasherDefault::default();
    hasher.hash_one(value)
}

pub(crate) fn printed<T: Display>(alloc: Global, value: &T) -> Result<String, AllocError> {
    format!(in alloc; "{value}")
}

pub(crate) fn debug_printed<T: Debug>(alloc: Global, value: &T) -> Result<String, AllocError> {
    format!(in alloc; "{value:?}")
}
