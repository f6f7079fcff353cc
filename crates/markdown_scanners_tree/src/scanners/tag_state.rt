//! Tags read by runs of bytes that keep a state.
ghost use Rattle.std.specs.Prelude.{ℕ, ◌≡◌, ◌≤◌, ◌<◌, ◌⊎◌, length, take, drop, slice_index, true, false};
ghost use Rattle.markdown_scanners_tree.specs.Bytes.{is_line_ending, is_at_line_end, is_unquoted, is_white_space_in_line};
ghost use Rattle.markdown_scanners_tree.specs.scanners.html_tag.HtmlTag.{is_tag_name_byte, is_attribute_start, is_attribute_byte};
ghost use Rattle.markdown_scanners_tree.specs.scanners.tag_state.private.TagMachine.{next_state, after_part, after_attribute_name, before_value, after_closing_name};
ghost use Rattle.markdown_scanners_tree.specs.scanners.tag_state.private.TagMachine.{is_tag_end, is_final, LeadsTo, BeginsWith, AllKeep, is_quoted_in_line};

use crate::scanners::classes::{
    is_ascii_alphanumeric, is_ascii_letter, is_ascii_whitespace, is_ascii_whitespace_no_nl,
    is_line_ending, is_unquoted_byte,
};

// What the bytes of a tag end in, as far as they are read.
#[derive(Clone, Copy, Drop)]
pub(crate) enum TagState {
    // The final ones, a whole open tag and a whole closing tag among them, stand first: then one
    // comparison tells them from the others.
    Open,
    Closed,
    Refused,
    Start,
    // After `<`.
    Opened,
    // An open tag: its name, and white space after a name or a value.
    Name,
    Spaced,
    AttributeName,
    AfterName,
    BeforeValue,
    Unquoted,
    // Inside this quote.
    Quoted(u8),
    AfterValue,
    Slashed,
    // A closing tag, after `</`: its name, and the white space and the line ending after it.
    Closing,
    ClosingName,
    ClosingSpaced,
    ClosingReturned,
    ClosingEnded,
}

// Whether the byte may stand in a tag name after its first.
fn continues_tag_name(byte: u8) -> bool
    ensures { result ≡ is_tag_name_byte byte }
{
    is_ascii_alphanumeric(byte) || byte == b'-'
}

// Whether an attribute name may begin with the byte.
fn begins_attribute(byte: u8) -> bool
    ensures { result ≡ is_attribute_start byte }
{
    is_ascii_letter(byte) || byte == b'_' || byte == b':'
}

// Whether the byte may stand in an attribute name after its first.
fn continues_attribute(byte: u8) -> bool
    ensures { result ≡ is_attribute_byte byte }
{
    is_ascii_alphanumeric(byte) || matches!(byte, b'_' | b'.' | b':' | b'-')
}

// After a name or a value, where the byte belongs to neither.
fn after_name_or_value(byte: u8) -> TagState
    ensures { result ≡ after_part byte }
{
    match byte {
        b'/' => TagState::Slashed,
        b'>' => TagState::Open,
        _ if is_ascii_whitespace(byte) => TagState::Spaced,
        _ => TagState::Refused,
    }
}

// After an attribute name, where the byte begins and continues none.
fn after_attribute(byte: u8) -> TagState
    ensures { result ≡ after_attribute_name byte }
{
    if is_ascii_whitespace(byte) {
        TagState::AfterName
    } else if byte == b'=' {
        TagState::BeforeValue
    } else {
        after_name_or_value(byte)
    }
}

// Where a value must begin.
fn first_of_value(byte: u8) -> TagState
    ensures { result ≡ before_value byte }
{
    match byte {
        b'\'' | b'"' => TagState::Quoted(byte),
        _ if is_ascii_whitespace(byte) => TagState::BeforeValue,
        _ if is_unquoted_byte(byte) => TagState::Unquoted,
        _ => TagState::Refused,
    }
}

// After the name of a closing tag, where the byte does not belong to it.
fn after_closing(byte: u8) -> TagState
    ensures { result ≡ after_closing_name byte }
{
    match byte {
        b'\r' => TagState::ClosingReturned,
        b'\n' => TagState::ClosingEnded,
        b'>' => TagState::Closed,
        _ if is_ascii_whitespace_no_nl(byte) => TagState::ClosingSpaced,
        _ => TagState::Refused,
    }
}

// The end of the bytes from the offset on that pass the test.
fn end_of<F: Fn(u8) -> bool>(bytes: &[u8], offset: usize, passes: F) -> usize
    requires callable { F.IsAlwaysCallable passes }
    requires inside { offset ≤ length bytes.now }

    ensures run { (i : ℕ) → offset ≤ i → i < result
        → F.post passes (slice_index bytes.now i) true }
    ensures within { (offset ≤ result) × (result ≤ length bytes.now) }
{
    let mut end = offset;
    while end < bytes.len() && passes(bytes[end]) {
        end += 1;
    }
    end
}

impl TagState {
    // What the first bytes lead to, and how many of them are read. Where they begin no tag, that is
    // mostly seen here, without a turn for each byte.
    pub(crate) fn after_first(bytes: &[u8]) -> (TagState, usize)
        ensures leads { BeginsWith (take result.1 bytes.now) result.0 }
        ensures within { result.1 ≤ length bytes.now }
    {
        match bytes {
            [b'<', b'/', letter, ..] if is_ascii_letter(*letter) => (TagState::ClosingName, 3),
            [b'<', b'/', other, ..] if *other > b'\r' => (TagState::Refused, 3),
            [b'<', letter, ..] if is_ascii_letter(*letter) => (TagState::Name, 2),
            [b'<', other, ..] if *other > b'\r' && *other != b'/' => (TagState::Refused, 2),
            _ => (TagState::Start, 0),
        }
    }

    // The end of bytes from the offset on that keep this state.
    fn end_of_run(self, bytes: &[u8], offset: usize) -> usize
        requires { offset ≤ length bytes.now }
        ensures run { AllKeep self bytes.now offset result }
        ensures within { (offset ≤ result) × (result ≤ length bytes.now) }
    {
        match self {
            TagState::Name | TagState::ClosingName => end_of(bytes, offset, continues_tag_name),
            TagState::AttributeName => end_of(bytes, offset, continues_attribute),
            TagState::Spaced | TagState::AfterName | TagState::BeforeValue => {
                end_of(bytes, offset, is_ascii_whitespace_no_nl)
            }
            TagState::ClosingSpaced | TagState::ClosingEnded => end_of(
                bytes,
                offset,
                is_ascii_whitespace_no_nl,
            ),
            TagState::Unquoted => end_of(bytes, offset, is_unquoted_byte),
            TagState::Quoted(quote) => {
                let stays = |byte: u8| -> bool
                    ensures { result ≡ is_quoted_in_line quote byte }
                { byte != quote && !is_line_ending(byte) };
                end_of(bytes, offset, stays)
            }
            _ => offset,
        }
    }

    // What the bytes lead to, up to the end of the tag, of the line or of the bytes, and how many
    // of them are read. A turn reads one byte and those after it that keep the state, which is
    // quicker than a turn for each byte.
    pub(crate) fn read_in_line(self, bytes: &[u8]) -> (TagState, usize)
        requires { is_final self ≡ false }

        // What is read.
        ensures leads { LeadsTo self (take result.1 bytes.now) result.0 }
        ensures within { result.1 ≤ length bytes.now }

        // Why no more is read.
        ensures stops { (is_final result.0 ≡ true)
            ⊎ (is_at_line_end (drop result.1 bytes.now) ≡ true) }
    {
        let mut state = self;
        let mut offset = 0;
        while offset < bytes.len() && !is_line_ending(bytes[offset]) {
            state = state.next(bytes[offset]);
            offset += 1;
            if state.is_final() {
                return (state, offset);
            }
            offset = state.end_of_run(bytes, offset);
        }
        (state, offset)
    }

    // After a byte of a line ending. A line with nothing in it calls nothing.
    #[inline(always)]
    pub(crate) fn after_line_ending(self, byte: u8) -> TagState
        requires { is_line_ending byte ≡ true }
        ensures { result ≡ next_state self byte }
    {
        match self {
            TagState::Spaced => TagState::Spaced,
            _ => self.after_end_of_line(byte),
        }
    }

    // The same from any state. Not inlined, so that the loop over lines stays small.
    #[inline(never)]
    fn after_end_of_line(self, byte: u8) -> TagState
        requires { is_line_ending byte ≡ true }
        ensures { result ≡ next_state self byte }
    {
        match self {
            TagState::Name | TagState::Spaced | TagState::Unquoted | TagState::AfterValue => {
                TagState::Spaced
            }
            TagState::AttributeName | TagState::AfterName => TagState::AfterName,
            TagState::BeforeValue => TagState::BeforeValue,
            TagState::Quoted(quote) if byte == quote => TagState::AfterValue,
            TagState::Quoted(quote) => TagState::Quoted(quote),
            TagState::ClosingName | TagState::ClosingSpaced if byte == b'\r' => {
                TagState::ClosingReturned
            }
            TagState::ClosingName | TagState::ClosingSpaced => TagState::ClosingEnded,
            TagState::ClosingReturned if byte == b'\n' => TagState::ClosingEnded,
            _ => TagState::Refused,
        }
    }

    // After one more byte.
    fn next(self, byte: u8) -> TagState
        ensures { result ≡ next_state self byte }
    {
        match self {
            TagState::Start if byte == b'<' => TagState::Opened,
            TagState::Opened if is_ascii_letter(byte) => TagState::Name,
            TagState::Opened if byte == b'/' => TagState::Closing,
            TagState::Name if continues_tag_name(byte) => TagState::Name,
            TagState::Spaced | TagState::AfterName if begins_attribute(byte) => {
                TagState::AttributeName
            }
            TagState::AttributeName if continues_attribute(byte) => TagState::AttributeName,
            TagState::AttributeName | TagState::AfterName => after_attribute(byte),
            TagState::BeforeValue => first_of_value(byte),
            TagState::Unquoted if is_unquoted_byte(byte) => TagState::Unquoted,
            TagState::Quoted(quote) if byte == quote => TagState::AfterValue,
            TagState::Quoted(quote) => TagState::Quoted(quote),
            TagState::Name | TagState::Spaced | TagState::Unquoted | TagState::AfterValue => {
                after_name_or_value(byte)
            }
            TagState::Slashed if byte == b'>' => TagState::Open,
            TagState::Closing if is_ascii_letter(byte) => TagState::ClosingName,
            TagState::ClosingName if continues_tag_name(byte) => TagState::ClosingName,
            TagState::ClosingName | TagState::ClosingSpaced => after_closing(byte),
            TagState::ClosingReturned if byte == b'\n' => TagState::ClosingEnded,
            TagState::ClosingReturned | TagState::ClosingEnded if is_ascii_whitespace_no_nl(byte) =>
                { TagState::ClosingEnded }
            TagState::ClosingReturned | TagState::ClosingEnded if byte == b'>' => TagState::Closed,
            _ => TagState::Refused,
        }
    }

    // Whether a tag is whole, with that many line endings of the source in it.
    pub(crate) fn is_tag_end(self, endings: usize) -> bool
        ensures { result ≡ is_tag_end self endings }
    {
        match self {
            TagState::Open => true,
            TagState::Closed => endings <= 1,
            _ => false,
        }
    }

    // Whether no byte leads further from here.
    pub(crate) fn is_final(self) -> bool
        ensures { result ≡ is_final self }
    {
        matches!(self, TagState::Open | TagState::Closed | TagState::Refused)
    }
}
