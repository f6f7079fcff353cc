//! The bytes of a word of a label, which are read at once.
ghost use Rattle.std.specs.Prelude.{length, ◌∷◌, ◌≡◌, ◌≤◌, IfSome};
ghost use Rattle.markdown_scanners_tree.specs.linklabel.private.Run.{is_ordinary, IsKeptByte, IsRun};

use crate::scanners::{is_ascii_punctuation, is_ascii_whitespace};

// Bytes of a word: how many, and whether the last one escapes the next byte.
#[derive(Clone, Copy, Drop)]
pub(crate) struct Run {
    pub(crate) len: usize,
    pub(crate) escapes: bool,
}

// The bytes of a word at the front, up to one that a cell of a table drops. They are read at once, so
// that they are appended at once. It is inlined, or there would be a call for each word.
#[inline(always)]
pub(crate) fn word_run(rest: &[u8], escaped: bool, is_in_table: bool) -> Run
    ensures run { IsRun is_in_table escaped rest.now result.len result.escapes }
    ensures within { result.len ≤ length rest.now }
{
    let mut run = Run {
        len: 0,
        escapes: escaped,
    };
    while run.len < rest.len() {
        let byte = rest[run.len];
        let after = &rest[run.len + 1..];
        let Some(escapes) = kept_byte(byte, after, run.escapes, is_in_table) else {
            return run;
        };
        run.escapes = escapes;
        run.len += 1;
    }
    run
}

// Whether a byte of a word escapes what stands after it. None for a backslash that a cell of a
// table drops or that ends the text, and for what is no byte of a word.
fn kept_byte(byte: u8, after: &[u8], escaped: bool, is_in_table: bool) -> Option<bool>
    ensures { IfSome result (IsKeptByte is_in_table escaped (byte ∷ after.now) byte) }
{
    match (byte, after) {
        (_, _) if is_ordinary(byte) => Some(false),
        // White space, as most words are followed by: one comparison tells it from the others.
        (_, _) if byte < b'[' => None,
        (b'\\', [b'|', ..]) if is_in_table => None,
        (b'\\', [next, ..]) => Some(!escaped && is_ascii_punctuation(*next)),
        (b'[' | b']', _) if escaped => Some(false),
        _ => None,
    }
}

// Whether the byte is no white space, bracket or backslash. These three are neighbors, `[`, `\` and
// `]`, and most bytes stand after them: so one comparison tells most bytes.
pub(crate) fn is_ordinary(byte: u8) -> bool
    ensures { result ≡ is_ordinary byte }
{
    byte > b']' || byte < b'[' && !is_ascii_whitespace(byte)
}
