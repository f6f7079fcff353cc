//! Texts that are made of parts.
ghost use Rattle.std.specs.Prelude.{◌≡◌, ◌+◌, ◌<◌, ◌≤◌, ◌++◌, IsOk, OnErr, if◌then◌else◌, is_ok, length};
ghost use Rattle.std.specs.String.{string_bytes, string_capacity, string_len};

use std::alloc::AllocError;

// Appends a part of a text. Often it is empty, as between two changed pieces that touch, and then no
// call is made.
pub(crate) fn push_part(out: &mut String, part: &str) -> Result<(), AllocError>
    // Where memory is refused the text stays as it was.
    ensures bytes { string_bytes out.new
        ≡ (if is_ok result then string_bytes out.old ++ part.now else string_bytes out.old) }
    ensures len { string_len out.new
        ≡ (if is_ok result then string_len out.old + length part.now else string_len out.old) }

    // It is refused only where there was no room.
    ensures capacity { string_capacity out.old ≤ string_capacity out.new }
    ensures succeeds { string_len out.old + length part.now ≤ string_capacity out.old
        → IsOk result }
    ensures full { OnErr result (string_capacity out.old < string_len out.old + length part.now) }
{
    if part.is_empty() {
        return Ok(());
    }
    out.push_str(part)
}
