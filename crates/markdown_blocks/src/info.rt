//! Info strings of fenced code. (CommonMark 0.31.2, section 4.5)
ghost use Rattle.std.specs.Prelude.{◌≡◌, ◌<◌};
ghost use Rattle.std.specs.Str.{IsUtf8};
ghost use Rattle.markdown_blocks.specs.info.Info.{info_of, without_end, without_front};

use markdown_scanners_tree::scanners::{line_head, scan_ch_repeat, scan_spaces_and_tabs};

/// The info string of fenced code whose fence, of this byte, stands at the front of the text.
pub fn info_of(fence: &[u8], byte: u8) -> &[u8]
    ensures info { result.now ≡ info_of byte fence.now }
    ensures utf8 { byte < 128 → IsUtf8 fence.now → IsUtf8 result.now }
{
    let (_, after) = fence.split_at(scan_ch_repeat(fence, byte));
    without_end(without_front(line_head(after)))
}

/// The bytes without the spaces and tabs at their front.
pub(crate) fn without_front(bytes: &[u8]) -> &[u8]
    ensures { result.now ≡ without_front bytes.now }
{
    let (_, after) = bytes.split_at(scan_spaces_and_tabs(bytes));
    after
}

/// The bytes without the spaces and tabs at their end.
pub(crate) fn without_end(bytes: &[u8]) -> &[u8]
    ensures { result.now ≡ without_end bytes.now }
{
    let mut end = bytes.len();
    while end > 0 && (bytes[end - 1] == b' ' || bytes[end - 1] == b'\t') {
        end -= 1;
    }
    &bytes[..end]
}
