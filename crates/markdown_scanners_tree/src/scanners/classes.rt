//! The classes of bytes, read from one table.
ghost use Rattle.std.specs.Prelude.{◌≡◌, IsTrue};
ghost use Rattle.markdown_scanners_tree.specs.Bytes.{is_line_ending, is_white_space, is_white_space_in_line, is_punctuation};
ghost use Rattle.markdown_scanners_tree.specs.Bytes.{is_letter, is_digit, is_alphanumeric, is_unquoted};
ghost use Rattle.markdown_scanners_tree.specs.scanners.Breaks.{is_break_marker, is_break_byte};
ghost use Rattle.markdown_scanners_tree.specs.scanners.classes.private.BreakBits.{break_bits};
ghost use Rattle.markdown_scanners_tree.specs.scanners.classes.private.ClassBits.{class_bits};
ghost use Rattle.markdown_scanners_tree.specs.scanners.classes.private.InDestination.{is_in_destination};

const WHITE_SPACE: u8 = 1;

const WHITE_SPACE_IN_LINE: u8 = 2;

const PUNCTUATION: u8 = 4;

const LETTER: u8 = 8;

const DIGIT: u8 = 16;

const UNQUOTED: u8 = 32;

// For each byte the sum of the bits of its classes.
const CLASSES: [u8; 256] = [
    32, 32, 32, 32, 32, 32, 32, 32, 32, 35, 1, 35, 35, 1, 32, 32, 32, 32, 32, 32, 32, 32, 32, 32,
    32, 32, 32, 32, 32, 32, 32, 32, 3, 36, 4, 36, 36, 36, 36, 4, 36, 36, 36, 36, 36, 36, 36, 36,
    48, 48, 48, 48, 48, 48, 48, 48, 48, 48, 36, 36, 4, 4, 4, 36, 36, 40, 40, 40, 40, 40, 40, 40,
    40, 40, 40, 40, 40, 40, 40, 40, 40, 40, 40, 40, 40, 40, 40, 40, 40, 40, 40, 36, 36, 36, 36, 36,
    4, 40, 40, 40, 40, 40, 40, 40, 40, 40, 40, 40, 40, 40, 40, 40, 40, 40, 40, 40, 40, 40, 40, 40,
    40, 40, 40, 36, 36, 36, 36, 32, 32, 32, 32, 32, 32, 32, 32, 32, 32, 32, 32, 32, 32, 32, 32, 32,
    32, 32, 32, 32, 32, 32, 32, 32, 32, 32, 32, 32, 32, 32, 32, 32, 32, 32, 32, 32, 32, 32, 32, 32,
    32, 32, 32, 32, 32, 32, 32, 32, 32, 32, 32, 32, 32, 32, 32, 32, 32, 32, 32, 32, 32, 32, 32, 32,
    32, 32, 32, 32, 32, 32, 32, 32, 32, 32, 32, 32, 32, 32, 32, 32, 32, 32, 32, 32, 32, 32, 32, 32,
    32, 32, 32, 32, 32, 32, 32, 32, 32, 32, 32, 32, 32, 32, 32, 32, 32, 32, 32, 32, 32, 32, 32, 32,
    32, 32, 32, 32, 32, 32, 32, 32, 32, 32, 32, 32, 32, 32, 32, 32,
];

// For each byte whether it is one of a bare link destination, and neither a parenthesis nor `\`.
const IN_DESTINATION: [bool; 256] = [
    false, false, false, false, false, false, false, false, false, false, false, false, false,
    false, false, false, false, false, false, false, false, false, false, false, false, false,
    false, false, false, false, false, false, false, true, true, true, true, true, true, true,
    false, false, true, true, true, true, true, true, true, true, true, true, true, true, true,
    true, true, true, true, true, true, true, true, true, true, true, true, true, true, true, true,
    true, true, true, true, true, true, true, true, true, true, true, true, true, true, true, true,
    true, true, true, true, true, false, true, true, true, true, true, true, true, true, true,
    true, true, true, true, true, true, true, true, true, true, true, true, true, true, true, true,
    true, true, true, true, true, true, true, true, true, true, true, true, true, true, true, true,
    true, true, true, true, true, true, true, true, true, true, true, true, true, true, true, true,
    true, true, true, true, true, true, true, true, true, true, true, true, true, true, true, true,
    true, true, true, true, true, true, true, true, true, true, true, true, true, true, true, true,
    true, true, true, true, true, true, true, true, true, true, true, true, true, true, true, true,
    true, true, true, true, true, true, true, true, true, true, true, true, true, true, true, true,
    true, true, true, true, true, true, true, true, true, true, true, true, true, true, true, true,
    true, true, true, true, true, true, true, true, true, true, true, true, true, true, true, true,
    true, true, true, true, true, true, true, true, true, true,
];

// For each byte a bit for each marker of a thematic break in which it may stand: 1 for `*`, 2 for `-`,
// 4 for `_`.
const BREAKS: [u8; 256] = [
    0, 0, 0, 0, 0, 0, 0, 0, 0, 7, 0, 0, 0, 0, 0, 0, 0, 0, 0, 0, 0, 0, 0, 0, 0, 0, 0, 0, 0, 0, 0, 0,
    7, 0, 0, 0, 0, 0, 0, 0, 0, 0, 1, 0, 0, 2, 0, 0, 0, 0, 0, 0, 0, 0, 0, 0, 0, 0, 0, 0, 0, 0, 0, 0,
    0, 0, 0, 0, 0, 0, 0, 0, 0, 0, 0, 0, 0, 0, 0, 0, 0, 0, 0, 0, 0, 0, 0, 0, 0, 0, 0, 0, 0, 0, 0, 4,
    0, 0, 0, 0, 0, 0, 0, 0, 0, 0, 0, 0, 0, 0, 0, 0, 0, 0, 0, 0, 0, 0, 0, 0, 0, 0, 0, 0, 0, 0, 0, 0,
    0, 0, 0, 0, 0, 0, 0, 0, 0, 0, 0, 0, 0, 0, 0, 0, 0, 0, 0, 0, 0, 0, 0, 0, 0, 0, 0, 0, 0, 0, 0, 0,
    0, 0, 0, 0, 0, 0, 0, 0, 0, 0, 0, 0, 0, 0, 0, 0, 0, 0, 0, 0, 0, 0, 0, 0, 0, 0, 0, 0, 0, 0, 0, 0,
    0, 0, 0, 0, 0, 0, 0, 0, 0, 0, 0, 0, 0, 0, 0, 0, 0, 0, 0, 0, 0, 0, 0, 0, 0, 0, 0, 0, 0, 0, 0, 0,
    0, 0, 0, 0, 0, 0, 0, 0, 0, 0, 0, 0, 0, 0, 0, 0, 0, 0, 0, 0, 0, 0, 0, 0, 0, 0, 0, 0, 0, 0, 0, 0,
];

// The sum of the bits of the classes that the byte is in.
fn classes_of(byte: u8) -> u8
    ensures { result ≡ class_bits byte }
{
    CLASSES[byte as usize]
}

/// Whether the byte is ASCII white space: tab, LF, vertical tab, form feed, CR or space.
///
/// (CommonMark 0.31.2, section 2.1; the vertical tab is counted too.)
pub fn is_ascii_whitespace(c: u8) -> bool
    ensures { result ≡ is_white_space c }
{
    classes_of(c) & WHITE_SPACE != 0
}

/// Whether the byte is ASCII white space that ends no line: tab, vertical tab, form feed or space.
pub fn is_ascii_whitespace_no_nl(c: u8) -> bool
    ensures { result ≡ is_white_space_in_line c }
{
    classes_of(c) & WHITE_SPACE_IN_LINE != 0
}

/// Whether the byte is ASCII punctuation.
///
/// (CommonMark 0.31.2, section 2.1.)
pub fn is_ascii_punctuation(c: u8) -> bool
    ensures { result ≡ is_punctuation c }
{
    classes_of(c) & PUNCTUATION != 0
}

// Whether the byte is LF or CR.
pub(crate) fn is_line_ending(c: u8) -> bool
    ensures { result ≡ is_line_ending c }
{
    c == b'\n' || c == b'\r'
}

// Whether the byte is an ASCII digit.
pub(in crate::scanners) fn is_ascii_digit(c: u8) -> bool
    ensures { result ≡ is_digit c }
{
    classes_of(c) & DIGIT != 0
}

// Whether the byte is an ASCII letter.
pub(in crate::scanners) fn is_ascii_letter(c: u8) -> bool
    ensures { result ≡ is_letter c }
{
    classes_of(c) & LETTER != 0
}

// Whether the byte is an ASCII letter or digit.
pub(in crate::scanners) fn is_ascii_alphanumeric(c: u8) -> bool
    ensures { result ≡ is_alphanumeric c }
{
    classes_of(c) & (LETTER | DIGIT) != 0
}

// Whether the byte can stand in an unquoted attribute value.
pub(in crate::scanners) fn is_unquoted_byte(c: u8) -> bool
    ensures { result ≡ is_unquoted c }
{
    classes_of(c) & UNQUOTED != 0
}

// Whether the byte is one of a bare link destination, at which no escape or parenthesis begins.
pub(in crate::scanners) fn is_in_destination(c: u8) -> bool
    ensures { result ≡ is_in_destination c }
{
    IN_DESTINATION[c as usize]
}

// Whether the byte may stand in a thematic break of this marker.
pub(in crate::scanners) fn is_break_byte(marker: u8, byte: u8) -> bool
    requires { IsTrue (is_break_marker marker) }
    ensures { result ≡ is_break_byte marker byte }
{
    breaks_of(byte) & breaks_of(marker) != 0
}

// The sum of the bits of the markers in whose thematic breaks the byte may stand.
fn breaks_of(byte: u8) -> u8
    ensures { result ≡ break_bits byte }
{
    BREAKS[byte as usize]
}

#[cfg(test)]
mod tests {
    use super::*;

    // Some rows by their names: the byte, and the sum of the bits of its classes.
    const ROWS: [(&str, u8, u8); 11] = [
        ("NUL", 0x00, 32),
        ("tab", b'\t', 35),
        ("LF", b'\n', 1),
        ("vertical tab", 0x0b, 35),
        ("CR", b'\r', 1),
        ("space", b' ', 3),
        ("-", b'-', 36),
        ("0", b'0', 48),
        ("<", b'<', 4),
        ("A", b'A', 40),
        ("largest byte", 0xff, 32),
    ];

    #[test]
    fn rows_are_sums_of_class_bits(rt: HostRuntime) {
        for (name, byte, bits) in ROWS {
            assert_eq!(rt; CLASSES[usize::from(byte)], bits, "row of {name}");
        }
    }

    // How many bytes each class holds.
    const COUNTS: [(&str, u8, usize); 6] = [
        ("white space", 1, 6),
        ("white space in line", 2, 4),
        ("punctuation", 4, 32),
        ("letters", 8, 52),
        ("digits", 16, 10),
        ("unquoted values", 32, 247),
    ];

    #[test]
    fn classes_hold_so_many_bytes(rt: HostRuntime) {
        for (name, bit, count) in COUNTS {
            let held = CLASSES.iter().filter(|row| **row & bit != 0).count();
            assert_eq!(rt; held, count, "bytes of {name}");
        }
    }
}
