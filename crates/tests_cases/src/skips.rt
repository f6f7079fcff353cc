//! What the handlers of cases skip.
ghost use Rattle.std.specs.Prelude.{◌≡◌, ◌≤◌, length};
ghost use Rattle.tests_cases.specs.Skipped.{skipped};

use markdown_scanners_tree::scanners::scan_ch_repeat;

/// What a handler skips at the front of the bytes after a line ending.
#[derive(Clone, Copy)]
pub(crate) enum Skips {
    // A case of tags has no handler, and a handler of labels says that the text ends there.
    Refused,
    Nothing,
    // A leading `> `.
    Quote,
    // Up to four spaces.
    Spaces,
    // A leading `x`.
    Letter,
}

impl Skips {
    /// The handler of this name.
    pub(crate) fn named(name: &str) -> Option<Skips> {
        match name.as_bytes() {
            b"none" | b"refuse" => Some(Skips::Refused),
            b"zero" => Some(Skips::Nothing),
            b"bq" => Some(Skips::Quote),
            b"sp" => Some(Skips::Spaces),
            b"x" => Some(Skips::Letter),
            _ => None,
        }
    }

    /// How many bytes are skipped.
    pub(crate) fn count(self, rest: &[u8]) -> usize
        ensures count { result ≡ skipped self rest.now }
        ensures within { result ≤ length rest.now }
    {
        match self {
            Skips::Refused | Skips::Nothing => 0,
            Skips::Quote => if rest.starts_with(b"> ") { 2 } else { 0 },
            Skips::Spaces => scan_ch_repeat(&rest[..rest.len().min(4)], b' '),
            Skips::Letter => if rest.starts_with(b"x") { 1 } else { 0 },
        }
    }
}
