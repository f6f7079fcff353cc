//! Tabs: how many columns one takes, and the spaces that are written for it.
ghost use Rattle.std.specs.Prelude.{◌≡◌, ◌++◌, ◌+◌, ◌-◌, ◌%◌, ◌≤◌, drop, length, take};
ghost use Rattle.markdown_scanners_tree.specs.Columns.{column_after, written_byte};

// As many spaces as the widest tab has.
pub(in crate::line) const SPACES: [u8; 4] = [b' ', b' ', b' ', b' '];

// How many columns a tab at this column takes.
pub(in crate::line) fn tab_width(column: u128) -> usize
    ensures width { result ≡ 4 - column % 4 }
{
    4 - (column % 4) as usize
}

// How many columns a byte at this column takes.
pub(in crate::line) fn width_at(column: u128, byte: u8) -> usize
    ensures column { column + result ≡ column_after column byte }
    ensures written { result ≡ length (written_byte column byte) }
    ensures within { result ≤ 4 }
{
    if byte == b'\t' { tab_width(column) } else { 1 }
}

// Writes a byte at a column, a tab as spaces; answers how many columns it takes.
pub(in crate::line) fn put_byte(buffer: &mut [u8], at: usize, column: u128, byte: u8) -> usize
    requires { at + length (written_byte column byte) ≤ length buffer.old }
    ensures column { column + result ≡ column_after column byte }
    ensures width { result ≡ length (written_byte column byte) }
    ensures within { result ≤ 4 }
    ensures written { buffer.new ≡ take at buffer.old ++ (written_byte column byte
        ++ drop (at + length (written_byte column byte)) buffer.old) }
{
    let width = width_at(column, byte);
    if byte == b'\t' {
        put(buffer, at, &SPACES[..width]);
    } else {
        buffer[at] = byte;
    }
    width
}

// Writes a text at an offset of the buffer.
pub(in crate::line) fn put(buffer: &mut [u8], at: usize, text: &[u8])
    requires { at + length text.now ≤ length buffer.old }
    ensures { buffer.new
        ≡ take at buffer.old ++ (text.now ++ drop (at + length text.now) buffer.old) }
{
    buffer[at..at + text.len()].copy_from_slice(text);
}
