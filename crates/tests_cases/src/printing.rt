//! How answers are written.
use crate::stop::CaseError;
use std::alloc::{AllocError, Global};
use std::fmt;

/// What stands for no answer.
pub(crate) const NONE: &str = "none";

/// A value, or `none`.
#[derive(Drop)]
pub(crate) struct OrNone<T>(pub Option<T>);

impl<T: fmt::Display> fmt::Display for OrNone<T> {
    fn fmt<W: fmt::Write>(&self, f: &mut fmt::Formatter<W>) -> fmt::Result {
        match &self.0 {
            Some(value) => value.fmt(f),
            None => f.write_str(NONE),
        }
    }
}

/// Bytes, two hexadecimal digits each, or a hyphen for none.
pub(crate) fn hex_text(alloc: Global, bytes: &[u8]) -> Result<String, AllocError> {
    if bytes.is_empty() {
        return String::from_str(alloc, "-");
    }
    hex::encode(alloc, bytes)
}

/// An answer as it is written.
pub(crate) fn shown<T: fmt::Display>(alloc: Global, answer: &T) -> Result<String, CaseError> {
    Ok(format!(in alloc; "{answer}")?)
}

/// The name of a variant, or `none`.
pub(crate) fn name_or_none<T: fmt::Debug>(
    alloc: Global,
    variant: &Option<T>,
) -> Result<String, CaseError> {
    match variant {
        Some(variant) => Ok(format!(in alloc; "{variant:?}")?),
        None => none(alloc),
    }
}

/// Two values with a space between them, or `none`.
pub(crate) fn two_or_none<T: fmt::Display, U: fmt::Display>(
    alloc: Global,
    values: &Option<(T, U)>,
) -> Result<String, CaseError> {
    match values {
        Some((first, second)) => Ok(format!(in alloc; "{} {}", *first, *second)?),
        None => none(alloc),
    }
}

/// A value and bytes, as `hex_text` writes them, with a space between them.
pub(crate) fn with_bytes<T: fmt::Display>(
    alloc: Global,
    value: &T,
    bytes: &[u8],
) -> Result<String, CaseError> {
    let digits = hex_text(alloc, bytes)?;
    Ok(format!(in alloc; "{value} {digits}")?)
}

/// What stands for no answer.
pub(crate) fn none(alloc: Global) -> Result<String, CaseError> {
    Ok(String::from_str(alloc, NONE)?)
}
