//! What a call comes to, as C gets it.

/// An answer.
pub(crate) const OK: u32 = 0;
/// Nothing of the kind stands there.
pub(crate) const NOTHING: u32 = 1;
/// The text is not UTF-8.
pub(crate) const NOT_UTF8: u32 = 2;
/// The offset is past the end of the bytes.
pub(crate) const PAST_END: u32 = 3;
/// The table of what is left out is none of the text.
pub(crate) const BAD_SKIPS: u32 = 4;
/// A number is so large that others can't be added to it.
pub(crate) const TOO_LARGE: u32 = 5;
/// The bytes are empty.
pub(crate) const EMPTY: u32 = 6;
/// The buffer is too short.
pub(crate) const TOO_SHORT: u32 = 7;
/// Memory was refused.
pub(crate) const NO_MEMORY: u32 = 8;
/// No opener of inline HTML ends at the offset.
pub(crate) const NO_OPENER: u32 = 9;
/// The offset is not above the one before it.
pub(crate) const NOT_RISING: u32 = 10;
/// The offset is inside what was found before it.
pub(crate) const INSIDE_FIND: u32 = 11;
/// Columns of a tab are pending, and the call is not one that takes space.
pub(crate) const SPACE_PENDING: u32 = 12;
/// A call of no known kind.
pub(crate) const BAD_KIND: u32 = 13;
/// The numbers are those of no line start on these bytes.
pub(crate) const BAD_STATE: u32 = 14;

/// In place of a length or an offset, where nothing is found.
pub(crate) const NONE: usize = usize::MAX;
