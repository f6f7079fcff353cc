//! Backslash escapes and character references in a text.
ghost use Rattle.std.specs.Prelude.{Bool, ◌∷◌, ◌≡◌, ◌+◌, ◌-◌, ◌<◌, ◌≤◌, ◌^◌, ◌++◌, ℕ};
ghost use Rattle.std.specs.Prelude.{[], Ok, IfOk, IfSome, IsOk, OnOk, false, length, min, slice_index, encode_utf8};
ghost use Rattle.std.specs.Str.{IsCharBoundary};
ghost use Rattle.std.specs.String.{string_bytes, string_len, string_capacity};
ghost use Rattle.markdown_values.specs.strings.Text.{cow_text, IsBoxed};
ghost use Rattle.markdown_scanners_tree.specs.Ascii.{ampersand, backslash, number_sign};
ghost use Rattle.markdown_scanners_tree.specs.scanners.entities.CharacterReference.{Lookup};
ghost use Rattle.markdown_scanners_tree.specs.scanners.entities.private.Digits.{IsNumberAnswer};
ghost use Rattle.markdown_scanners_tree.specs.scanners.unescaping.Unescaping.{HasPieces, ForPieces, joined_meanings, AreThemselves};
ghost use Rattle.markdown_scanners_tree.specs.scanners.unescaping.private.FirstPiece.{IsFirstPiece, IsFirstSize, IsPushed, HasRoom};
ghost use Rattle.markdown_scanners_tree.specs.scanners.unescaping.private.FirstPiece.{begins_change, starts_pipe as starts_pipe_at};

use crate::scanners::entities::{Entities, numbered_char, scan_name};
use crate::scanners::escapes::starts_escape;
use crate::texts::push_part;
use markdown_values::strings::CowStr;
use memchr::memchr3;
use std::alloc::{AllocError, Global};

/// The text with its backslash escapes and character references resolved, and without CR.
///
/// In a table two backslashes before a pipe stand for the pipe. Where nothing is to be resolved the
/// input itself is handed back and no memory is taken. Else the text is measured first, and its
/// memory is asked for once, at its exact length.
///
/// (CommonMark 0.31.2, sections 2.4 and 2.5; GitHub Flavored Markdown 0.29, section 4.10.)
///
/// # Errors
///
/// `AllocError` where that memory is refused; the input is dropped then.
pub fn unescape<'a, E: Entities>(
    alloc: Global,
    input: CowStr<'a>,
    is_in_table: bool,
    entities: &E,
) -> Result<CowStr<'a>, AllocError>
    // The pieces of the input are one list, and all clauses speak of it.
    ensures pieces { HasPieces is_in_table (E.known entities.now) (cow_text input.entry) }

    // The text is what the pieces mean.
    ensures text { ForPieces is_in_table (E.known entities.now) (cow_text input.entry) (λ pieces.
        IfOk result (λ text. cow_text text ≡ joined_meanings pieces)) }

    // The input is handed back where each piece means itself; else the text has its own memory.
    ensures same { ForPieces is_in_table (E.known entities.now) (cow_text input.entry) (λ pieces.
        AreThemselves pieces → result ≡ Ok input.entry) }
    ensures boxed { ForPieces is_in_table (E.known entities.now) (cow_text input.entry) (λ pieces.
        ¬ AreThemselves pieces → IfOk result IsBoxed) }
{
    let (changes, len) = measure(input.as_str(), is_in_table, entities);
    if !changes {
        return Ok(input);
    }
    let mut text = String::with_capacity(alloc, len)?;
    push_meanings(&mut text, input.as_str(), is_in_table, entities)?;
    CowStr::from_string(alloc, text)
}

// Whether a piece isn't one byte that means itself, and the length of what the pieces mean.
fn measure<E: Entities>(text: &str, is_in_table: bool, entities: &E) -> (bool, usize)
    ensures pieces { HasPieces is_in_table (E.known entities.now) text.now }
    ensures plain { ForPieces is_in_table (E.known entities.now) text.now (λ pieces.
        result.0 ≡ false → AreThemselves pieces) }
    ensures changed { ForPieces is_in_table (E.known entities.now) text.now (λ pieces.
        AreThemselves pieces → result.0 ≡ false) }
    ensures len { ForPieces is_in_table (E.known entities.now) text.now (λ pieces.
        result.1 ≡ min (length (joined_meanings pieces)) (2 ^ 64 - 1)) }
{
    let bytes = text.as_bytes();
    let mut dropped = 0;
    let mut inserted: usize = 0;
    let mut i = 0;
    while i < bytes.len() {
        let size = first_size(&bytes[i..], is_in_table, entities);
        dropped += size.dropped;
        inserted = inserted.saturating_add(size.inserted);
        i += size.source;
    }
    (
        dropped > 0,
        (bytes.len() - dropped).saturating_add(inserted),
    )
}

// Appends what the pieces of the text mean. With room for that no growth is refused.
fn push_meanings<E: Entities>(
    out: &mut String,
    text: &str,
    is_in_table: bool,
    entities: &E,
) -> Result<(), AllocError>
    ensures bytes { ForPieces is_in_table (E.known entities.now) text.now (λ pieces.
        OnOk result (string_bytes out.new ≡ string_bytes out.old ++ joined_meanings pieces)) }
    ensures room { ForPieces is_in_table (E.known entities.now) text.now (λ pieces.
        string_len out.old + length (joined_meanings pieces) ≤ string_capacity out.old
        → IsOk result) }
{
    let mut run = 0;
    let mut i = 0;
    while i < text.len() {
        (run, i) = push_first(out, text, run, i, is_in_table, entities)?;
    }
    out.push_str(&text[run..])
}

// Where a changed piece stands at the offset, appends the text from `run` up to it, and what stands
// in for its front. Answers where the text begins that isn't appended yet, and the offset after the
// piece, or after a run of pieces that mean themselves.
fn push_first<E: Entities>(
    out: &mut String,
    text: &str,
    run: usize,
    offset: usize,
    is_in_table: bool,
    entities: &E,
) -> Result<(usize, usize), AllocError>
    requires ordered { run ≤ offset }
    requires within { offset < length text.now }
    requires start { IsCharBoundary text.now run }
    ensures within { IfOk result (λ r. r.1 ≤ length text.now) }
    ensures on { IfOk result (λ r. offset < r.1) }
    ensures pushed { IfOk result (λ r. IsPushed is_in_table (E.known entities.now) text.now
        run offset out.old out.new r.0 r.1) }
    ensures capacity { string_capacity out.old ≤ string_capacity out.new }
    ensures room { HasRoom is_in_table (E.known entities.now) text.now run offset out.old
        → IsOk result }
{
    let bytes = &text.as_bytes()[offset..];
    match bytes[0] {
        b'\r' => {
            push_part(out, &text[run..offset])?;
            Ok((offset + 1, offset + 1))
        }
        b'\\' => {
            let dropped = escape_len(bytes, is_in_table);
            if dropped == 0 {
                return Ok((run, offset + lone_len(bytes)));
            }
            push_with_byte(out, &text[run..offset], bytes[dropped])?;
            let length = dropped + 1;
            Ok((offset + length, offset + length))
        }
        b'&' => push_ampersand(out, text, run, offset, entities),
        _ => Ok((run, offset + plain_len(bytes))),
    }
}

// The same at an ampersand.
fn push_ampersand<E: Entities>(
    out: &mut String,
    text: &str,
    run: usize,
    offset: usize,
    entities: &E,
) -> Result<(usize, usize), AllocError>
    requires ordered { run ≤ offset }
    requires within { offset < length text.now }
    requires start { IsCharBoundary text.now run }
    requires begins { slice_index text.now offset ≡ ampersand }
    ensures within { IfOk result (λ r. r.1 ≤ length text.now) }
    ensures on { IfOk result (λ r. offset < r.1) }
    ensures pushed { (in_table : Bool) → IfOk result (λ r. IsPushed in_table
        (E.known entities.now) text.now run offset out.old out.new r.0 r.1) }
    ensures capacity { string_capacity out.old ≤ string_capacity out.new }
    ensures room { (in_table : Bool) → HasRoom in_table (E.known entities.now) text.now run offset
        out.old → IsOk result }
{
    let bytes = &text.as_bytes()[offset..];
    if bytes.len() > 1 && bytes[1] == b'#' {
        let Some((length, meaning)) = numbered_char(bytes) else {
            let plain = 1 + lone_len(&bytes[1..]);
            return Ok((run, offset + plain));
        };
        push_with_char(out, &text[run..offset], meaning)?;
        return Ok((offset + length, offset + length));
    }
    let (name, meaning) = scan_name(bytes, entities);
    let Some(meaning) = meaning else {
        let plain = name + 1;
        return Ok((run, offset + plain));
    };
    let length = name + 2;
    push_both(out, &text[run..offset], meaning)?;
    Ok((offset + length, offset + length))
}

// Appends a text and an ASCII byte. With room for both no growth is refused. What is left of an escape
// is appended so, since nothing is copied between two escapes that touch then. It is always inlined,
// so that the byte costs no call.
#[inline(always)]
fn push_with_byte(out: &mut String, first: &str, byte: u8) -> Result<(), AllocError>
    requires ascii { byte < 128 }
    ensures bytes { OnOk result
        (string_bytes out.new ≡ string_bytes out.old ++ (first.now ++ byte ∷ [])) }
    ensures len { OnOk result (string_len out.new
        ≡ string_len out.old + (length first.now + 1)) }
    ensures capacity { string_capacity out.old ≤ string_capacity out.new }
    ensures succeeds { string_len out.old + (length first.now + 1) ≤ string_capacity out.old
        → IsOk result }
{
    push_part(out, first)?;
    out.push(char::from(byte))
}

// Appends a text and a character. With room for both no growth is refused.
fn push_with_char(out: &mut String, first: &str, c: char) -> Result<(), AllocError>
    ensures bytes { OnOk result
        (string_bytes out.new ≡ string_bytes out.old ++ (first.now ++ encode_utf8 c)) }
    ensures len { OnOk result (string_len out.new
        ≡ string_len out.old + (length first.now + length (encode_utf8 c))) }
    ensures capacity { string_capacity out.old ≤ string_capacity out.new }
    ensures succeeds { string_len out.old + (length first.now + length (encode_utf8 c))
        ≤ string_capacity out.old → IsOk result }
{
    push_part(out, first)?;
    out.push(c)
}

// Appends two texts. With room for both no growth is refused. Most entities mean one ASCII
// character, which costs no call.
#[inline(always)]
fn push_both(out: &mut String, first: &str, second: &str) -> Result<(), AllocError>
    ensures bytes { OnOk result
        (string_bytes out.new ≡ string_bytes out.old ++ (first.now ++ second.now)) }
    ensures len { OnOk result (string_len out.new
        ≡ string_len out.old + (length first.now + length second.now)) }
    ensures capacity { string_capacity out.old ≤ string_capacity out.new }
    ensures succeeds { string_len out.old + (length first.now + length second.now)
        ≤ string_capacity out.old → IsOk result }
{
    let bytes = second.as_bytes();
    if bytes.len() == 1 && bytes[0] < 128 {
        return push_with_byte(out, first, bytes[0]);
    }
    push_part(out, first)?;
    out.push_str(second)
}

// The length of the first piece of a text, or of a run of pieces that mean themselves, how many
// bytes are dropped at its front, and how many stand in for them.
#[derive(Clone, Copy)]
struct PieceSize {
    source: usize,
    dropped: usize,
    inserted: usize,
}

// The sizes of what stands at the front of a text that isn't empty.
fn first_size<E: Entities>(bytes: &[u8], is_in_table: bool, entities: &E) -> PieceSize
    requires { 0 < length bytes.now }
    ensures some { 0 < result.source }
    ensures within { result.source ≤ length bytes.now }
    ensures size { IsFirstSize is_in_table (E.known entities.now) bytes.now
        result.source result.dropped result.inserted }
{
    match bytes[0] {
        b'\r' => piece_size(1, 1, 0),
        b'\\' => backslash_size(bytes, is_in_table),
        b'&' => ampersand_size(bytes, entities),
        _ => piece_size(plain_len(bytes), 0, 0),
    }
}

// The same at a backslash.
fn backslash_size(bytes: &[u8], is_in_table: bool) -> PieceSize
    requires some { 0 < length bytes.now }
    requires begins { slice_index bytes.now 0 ≡ backslash }
    ensures some { 0 < result.source }
    ensures within { result.source ≤ length bytes.now }
    ensures size { (known : Lookup) → IsFirstSize is_in_table known bytes.now
        result.source result.dropped result.inserted }
{
    let dropped = escape_len(bytes, is_in_table);
    if dropped == 0 {
        return piece_size(lone_len(bytes), 0, 0);
    }
    piece_size(dropped + 1, dropped, 0)
}

// The same at an ampersand. Where no reference stands there, the letters and digits after it mean
// themselves too.
fn ampersand_size<E: Entities>(bytes: &[u8], entities: &E) -> PieceSize
    requires some { 0 < length bytes.now }
    requires begins { slice_index bytes.now 0 ≡ ampersand }
    ensures some { 0 < result.source }
    ensures within { result.source ≤ length bytes.now }
    ensures size { (in_table : Bool) → IsFirstSize in_table (E.known entities.now) bytes.now
        result.source result.dropped result.inserted }
{
    if bytes.len() > 1 && bytes[1] == b'#' {
        return number_size(bytes);
    }
    let (name, text) = scan_name(bytes, entities);
    match text {
        Some(text) => piece_size(name + 2, name + 2, text.len()),
        None => piece_size(name + 1, 0, 0),
    }
}

// The same at an ampersand and `#`.
fn number_size(bytes: &[u8]) -> PieceSize
    requires long { 1 < length bytes.now }
    requires begins { slice_index bytes.now 0 ≡ ampersand }
    requires number { slice_index bytes.now 1 ≡ number_sign }
    ensures some { 0 < result.source }
    ensures within { result.source ≤ length bytes.now }
    ensures size { (in_table : Bool) (known : Lookup) → IsFirstSize in_table known bytes.now
        result.source result.dropped result.inserted }
{
    match numbered_char(bytes) {
        Some((source, meaning)) => piece_size(source, source, meaning.len_utf8()),
        None => piece_size(1 + lone_len(&bytes[1..]), 0, 0),
    }
}

// The three sizes.
fn piece_size(source: usize, dropped: usize, inserted: usize) -> PieceSize
    ensures { result
        ≡ record { source = source; dropped = dropped; inserted = inserted } }
{
    PieceSize {
        source,
        dropped,
        inserted,
    }
}

// How many bytes at the front come before a byte with which a changed piece may begin. A byte alone
// is given from a longer run before the search, which costs more than one byte is worth, as in
// `\*a\*a`.
fn plain_len(bytes: &[u8]) -> usize
    requires some { 0 < length bytes.now }
    requires plain { begins_change (slice_index bytes.now 0) ≡ false }
    ensures plain { (k : ℕ) → k < result → begins_change (slice_index bytes.now k) ≡ false }
    ensures within { result ≤ length bytes.now }
    ensures some { 0 < result }
{
    match bytes {
        [_, b'\\' | b'&' | b'\r', ..] => 1,
        _ => memchr3(b'\\', b'&', b'\r', bytes).unwrap_or(bytes.len()),
    }
}

// How many bytes at the front mean themselves where the first one does: one, and the second too
// where no changed piece may begin with it.
fn lone_len(bytes: &[u8]) -> usize
    requires { 0 < length bytes.now }
    ensures plain { 1 < result → begins_change (slice_index bytes.now 1) ≡ false }
    ensures within { result ≤ length bytes.now }
    ensures some { 0 < result }
    ensures at_most_two { result ≤ 2 }
{
    match bytes {
        [_] | [_, b'\\' | b'&' | b'\r', ..] => 1,
        _ => 2,
    }
}

// How many bytes are dropped from the first piece of a text that begins with a backslash. One byte
// is left of it.
fn escape_len(bytes: &[u8], is_in_table: bool) -> usize
    requires some { 0 < length bytes.now }
    requires begins { slice_index bytes.now 0 ≡ backslash }
    ensures piece { (known : Lookup)
        → IsFirstPiece is_in_table known bytes.now (result + 1) result [] }
    ensures within { result + 1 ≤ length bytes.now }
    ensures ascii { 0 < result → slice_index bytes.now result < 128 }
{
    if is_in_table && starts_pipe(bytes) {
        2
    } else if starts_escape(bytes, 0) {
        1
    } else {
        0
    }
}

// Whether two backslashes and a pipe stand at the front.
fn starts_pipe(bytes: &[u8]) -> bool
    ensures { result ≡ starts_pipe_at bytes.now }
{
    bytes.len() > 2 && bytes[0] == b'\\' && bytes[1] == b'\\' && bytes[2] == b'|'
}
