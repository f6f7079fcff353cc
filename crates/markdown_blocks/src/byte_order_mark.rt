//! The byte order mark that a page may begin with, which is no part of its text.
ghost use Rattle.std.specs.Prelude.{◌≡◌, ◌≤◌, length};
ghost use Rattle.markdown_blocks.specs.byte_order_mark.ByteOrderMark.{text_start};

/// U+FEFF in UTF-8.
pub const BYTE_ORDER_MARK: [u8; 3] = [0xEF, 0xBB, 0xBF];

/// How many bytes of a page stand before its text: the three of a byte order mark, U+FEFF in UTF-8,
/// where the page begins with one, and else none. A second one is text.
///
/// The calls on a page ask it themselves, and count their offsets from the start of the page. Who walks
/// a page by `Walk` begins here.
pub fn text_start(page: &[u8]) -> usize
    ensures start { result ≡ text_start page.now }
    ensures within { result ≤ length page.now }
{
    if page.starts_with(&BYTE_ORDER_MARK) {
        return BYTE_ORDER_MARK.len();
    }
    0
}
