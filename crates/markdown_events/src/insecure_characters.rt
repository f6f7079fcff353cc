//! Insecure characters. (CommonMark 0.31.2, section 2.3)
ghost use Rattle.std.specs.Prelude.{◌≡◌, IfOk};
ghost use Rattle.markdown_values.specs.strings.Text.{cow_text};
ghost use Rattle.markdown_events.specs.InsecureCharacters.{replace_nul};

use markdown_values::strings::CowStr;
use memchr::memchr;
use std::alloc::{AllocError, Global};

/// The text with U+FFFD instead of each U+0000. One without U+0000 is lent as it is.
pub fn replace_nul(alloc: Global, text: &str) -> Result<CowStr<'_>, AllocError>
    ensures { IfOk result (λ read. cow_text read ≡ replace_nul text.now) }
{
    if memchr(0, text.as_bytes()).is_none() {
        return Ok(CowStr::Borrowed(text));
    }
    CowStr::from_string(alloc, text.replace(alloc, '\0', "\u{fffd}")?)
}
