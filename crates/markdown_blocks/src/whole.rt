//! Lines that are whole, whatever bytes follow.
ghost use Rattle.std.specs.Prelude.{◌≡◌};
ghost use Rattle.markdown_blocks.specs.taken.Whole.{AreWhole, surely_ends_line};

/// How many bytes at the front of a text are lines that are whole, whatever bytes follow it. A CR
/// that is the last byte may be half a line ending.
pub fn whole_lines(text: &[u8]) -> usize
    ensures { AreWhole text.now result }
{
    let mut end = text.len();
    while end > 0 {
        if surely_ends_line(&text[end - 1..]) {
            return end;
        }
        end -= 1;
    }
    0
}

// Whether a line ends with the first byte, whatever bytes follow.
fn surely_ends_line(bytes: &[u8]) -> bool
    ensures { result ≡ surely_ends_line bytes.now }
{
    match bytes {
        [b'\n', ..] => true,
        [b'\r', next, ..] => *next != b'\n',
        _ => false,
    }
}
