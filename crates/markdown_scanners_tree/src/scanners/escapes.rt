//! Backslash escapes.
ghost use Rattle.std.specs.Prelude.{◌≡◌, ◌+◌, ◌<◌, ◌≤◌, IsTrue, length, drop};
ghost use Rattle.markdown_scanners_tree.specs.scanners.Escapes.{starts_escape as starts_escape_at};

use crate::scanners::classes::is_ascii_punctuation;

// Whether a backslash and punctuation stand at the offset.
pub(crate) fn starts_escape(bytes: &[u8], i: usize) -> bool
    requires { i < length bytes.now }
    ensures value { result ≡ starts_escape_at (drop i bytes.now) }
    ensures two { IsTrue result → i + 2 ≤ length bytes.now }
{
    if i + 1 == bytes.len() {
        return false;
    }
    bytes[i] == b'\\' && is_ascii_punctuation(bytes[i + 1])
}
