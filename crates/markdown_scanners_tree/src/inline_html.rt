//! Scans of inline HTML that begins with `<!` or `<?`: comments, CDATA sections, declarations and
//! processing instructions (CommonMark 0.31.2, section 6.6). A guard remembers that a search found
//! nothing, so that many openers cost hardly more than one.
ghost use Rattle.std.specs.Prelude.{◌≡◌, ◌≢◌, ◌≤◌, ◌<◌, ◌+◌, ◌^◌, length, IsTrue, IfSome, Some, None, IfOk, IfErr, OnOk, OnErr, slice_get};
ghost use Rattle.markdown_scanners_tree.specs.Ascii.{exclamation_mark, hyphen, question_mark, left_bracket};
ghost use Rattle.markdown_scanners_tree.specs.inline_html.CountedText.{passing, searched_bytes};
ghost use Rattle.markdown_scanners_tree.specs.declared.inline_html.HtmlStop.TheVariants.{NoOpener};
ghost use Rattle.markdown_scanners_tree.specs.inline_html.InlineHtml.{Begins, Declaration, ends_opener, opener_before, declared_at, processing_at, opening_at, first_offset};
ghost use Rattle.markdown_scanners_tree.specs.inline_html.Guard.{number_after, answer_of_scan, guard_after_scan, text_after_scan, IsTrueGuard, IsTrueScan};

mod counted_text;
mod run;

pub use counted_text::CountedText;
pub use run::{HtmlRun, InlineHtmlRun, run_inline_html};

/// For each kind the offset up to which a scan searches for no closer of it: a scan of a comment, a
/// CDATA section or a declaration below that offset, and one of a processing instruction at it or
/// below it. Where a search found no closer, that is the length of the text. One guard serves one
/// text, at offsets that rise.
#[derive(Drop)]
pub struct HtmlScanGuard {
    /// Of comments.
    pub comment: usize,
    /// Of CDATA sections.
    pub cdata: usize,
    /// Of declarations.
    pub declaration: usize,
    /// Of processing instructions.
    pub processing: usize,
}

/// Why a run refuses an offset; the first of these that holds.
#[derive(Debug, PartialEq, Drop)]
pub enum HtmlStop {
    /// The offset is past the end, or not just after `<!` or `<?`.
    NoOpener,
    /// The offset is not above the last accepted one.
    NotRising,
    /// The offset is below the end of the last find.
    InsideFind,
}

impl HtmlScanGuard {
    /// The guard to begin a text with: all its offsets are 0, so it stops no scan that comes after
    /// an opener.
    pub fn new() -> HtmlScanGuard
        ensures start { result
            ≡ record { comment = 0; cdata = 0; declaration = 0; processing = 0 } }
    {
        HtmlScanGuard {
            comment: 0,
            cdata: 0,
            declaration: 0,
            processing: 0,
        }
    }
}

/// The offset after the comment, CDATA section or declaration that begins at `offset`, just after
/// `<!`; None where none does, or where the guard stops its kind. A guard that is true at `offset`
/// stops no piece that is closed, and is left true at each later offset that isn't below the answer.
/// (CommonMark 0.31.2, section 6.6)
pub fn scan_inline_html_comment(
    bytes: &[u8],
    offset: usize,
    guard: &mut HtmlScanGuard,
) -> Option<usize>
    ensures answer { result ≡ answer_of_scan declared_at bytes.now guard.old offset }
    ensures guards { guard.new ≡ guard_after_scan declared_at bytes.now guard.old offset }
    ensures finds { IsTrue (ends_opener exclamation_mark bytes.now offset)
        → IsTrueGuard bytes.now guard.old offset
        → IsTrueScan bytes.now offset result guard.new }
{
    let mut text = CountedText::new(bytes);
    scan_inline_html_comment_counted(&mut text, offset, guard)
}

/// The offset after the processing instruction that begins at `offset`, just after `<?`; None where
/// it isn't closed, or where the guard stops its kind. The guard is as in
/// `scan_inline_html_comment`. (CommonMark 0.31.2, section 6.6)
pub fn scan_inline_html_processing(
    bytes: &[u8],
    offset: usize,
    guard: &mut HtmlScanGuard,
) -> Option<usize>
    requires within { offset ≤ length bytes.now }
    ensures answer { result ≡ answer_of_scan processing_at bytes.now guard.old offset }
    ensures guards { guard.new ≡ guard_after_scan processing_at bytes.now guard.old offset }
    ensures finds { IsTrue (ends_opener question_mark bytes.now offset)
        → IsTrueGuard bytes.now guard.old offset
        → IsTrueScan bytes.now offset result guard.new }
{
    let mut text = CountedText::new(bytes);
    scan_inline_html_processing_counted(&mut text, offset, guard)
}

/// As `scan_inline_html_comment`, over a text that counts the bytes passed over. It is inlined, so
/// that the count costs nothing where nobody reads it.
#[inline(always)]
pub fn scan_inline_html_comment_counted(
    text: &mut CountedText,
    offset: usize,
    guard: &mut HtmlScanGuard,
) -> Option<usize>
    requires room { text.old.passed < 2 ^ 119 }

    // What every guard gives.
    ensures answer { result ≡ answer_of_scan declared_at text.old.text guard.old offset }
    ensures guards { guard.new ≡ guard_after_scan declared_at text.old.text guard.old offset }
    ensures counts { text.new ≡ text_after_scan declared_at text.old guard.old offset }

    // What a true guard gives.
    ensures finds { IsTrue (ends_opener exclamation_mark text.old.text offset)
        → IsTrueGuard text.old.text guard.old offset
        → IsTrueScan text.old.text offset result guard.new }
{
    match text.look(offset) {
        Some(b'-') => scan_comment(text, offset, guard),
        Some(b'[') => scan_cdata(text, offset, guard),
        Some(byte) if byte.is_ascii_alphabetic() => scan_declaration(text, offset, guard),
        _ => None,
    }
}

/// As `scan_inline_html_processing`, over a text that counts the bytes passed over.
pub fn scan_inline_html_processing_counted(
    text: &mut CountedText,
    offset: usize,
    guard: &mut HtmlScanGuard,
) -> Option<usize>
    requires room { text.old.passed < 2 ^ 119 }
    requires within { offset ≤ length text.old.text }

    // What every guard gives.
    ensures answer { result ≡ answer_of_scan processing_at text.old.text guard.old offset }
    ensures guards { guard.new ≡ guard_after_scan processing_at text.old.text guard.old offset }
    ensures counts { text.new ≡ text_after_scan processing_at text.old guard.old offset }

    // What a true guard gives.
    ensures finds { IsTrue (ends_opener question_mark text.old.text offset)
        → IsTrueGuard text.old.text guard.old offset
        → IsTrueScan text.old.text offset result guard.new }
{
    if offset <= guard.processing {
        return None;
    }
    let hit = find_or_shut(text, b"?>", offset, &mut guard.processing)?;
    Some(hit + 2)
}

/// Scans what begins at `offset`: after `<!` as `scan_inline_html_comment_counted` does, and after
/// `<?` as `scan_inline_html_processing_counted` does. It is inlined, since its answer would be
/// passed by its address. (CommonMark 0.31.2, section 6.6)
///
/// # Errors
///
/// `NoOpener` where neither ends at `offset`; then the text and the guard are as before.
#[inline(always)]
pub fn scan_inline_html_counted(
    text: &mut CountedText,
    offset: usize,
    guard: &mut HtmlScanGuard,
) -> Result<Option<usize>, HtmlStop>
    requires room { text.old.passed < 2 ^ 119 }

    // It is refused exactly where no opener ends at the offset.
    ensures refused { IfErr result (λ why.
        (why ≡ NoOpener) × (opener_before text.old.text offset ≡ None)) }
    ensures opened { OnOk result (opener_before text.old.text offset ≢ None) }
    ensures unchanged { OnErr result ((text.new ≡ text.old) × (guard.new ≡ guard.old)) }

    // What every guard gives.
    ensures answer { IfOk result (λ found.
        found ≡ answer_of_scan opening_at text.old.text guard.old offset) }
    ensures guards { OnOk result
        (guard.new ≡ guard_after_scan opening_at text.old.text guard.old offset) }
    ensures counts { OnOk result
        (text.new ≡ text_after_scan opening_at text.old guard.old offset) }
    ensures within { IfOk result (λ found. IfSome found (λ end.
        (offset ≤ end) × (end ≤ length text.old.text))) }
    ensures bound { text.new.passed ≤ text.old.passed + length text.old.text + 8 }

    // What a true guard gives.
    ensures finds { IsTrueGuard text.old.text guard.old offset
        → IfOk result (λ found. IsTrueScan text.old.text offset found guard.new) }
{
    match text.opener_before(offset) {
        Some(b'!') => Ok(scan_inline_html_comment_counted(text, offset, guard)),
        Some(_) => Ok(scan_inline_html_processing_counted(text, offset, guard)),
        None => Err(HtmlStop::NoOpener),
    }
}

// The first offset from `from` on at which the closer stands. Where there is none, its kind's number
// becomes the text's length, so that later scans search for it no more. Inlined, since the number
// would be passed by its address.
#[inline(always)]
fn find_or_shut(
    text: &mut CountedText,
    closer: &[u8],
    from: usize,
    number: &mut usize,
) -> Option<usize>
    requires some_closer { 0 < length closer.now }
    requires room { text.old.passed < 2 ^ 120 }

    // What is found.
    ensures answer { result ≡ first_offset text.old.text closer.now from }
    ensures within { IfSome result (λ hit.
        (from ≤ hit) × (hit + length closer.now ≤ length text.old.text)) }

    // What is left.
    ensures number { number.new ≡ number_after text.old.text number.old result }
    ensures counts { text.new
        ≡ passing text.old (searched_bytes text.old.text closer.now from result) }
    ensures fits_usize { length text.old.text < 2 ^ 64 }
{
    let found = text.find(closer, from);
    if found.is_none() {
        *number = text.len();
    }
    found
}

// The rest of a scan whose first byte, looked at already, is a hyphen.
fn scan_comment(text: &mut CountedText, offset: usize, guard: &mut HtmlScanGuard) -> Option<usize>
    requires room { text.old.passed < 2 ^ 119 + 1 }
    requires fits_usize { length text.old.text < 2 ^ 64 }
    requires stands { slice_get text.old.text offset ≡ Some hyphen }

    ensures answer { result ≡ answer_of_scan declared_at text.old.text guard.old offset }
    ensures guards { guard.new ≡ guard_after_scan declared_at text.old.text guard.old offset }
    ensures counts { passing text.new 1 ≡ text_after_scan declared_at text.old guard.old offset }
{
    if offset < guard.comment {
        return None;
    }
    let second = text.look(offset + 1);
    if second != Some(b'-') {
        return None;
    }
    let hit = find_or_shut(text, b"-->", offset, &mut guard.comment)?;
    guard.comment = hit + 1;
    Some(hit + 3)
}

// The rest of a scan whose first byte, looked at already, is an opening bracket.
fn scan_cdata(text: &mut CountedText, offset: usize, guard: &mut HtmlScanGuard) -> Option<usize>
    requires room { text.old.passed < 2 ^ 119 + 1 }
    requires fits_usize { length text.old.text < 2 ^ 64 }
    requires stands { slice_get text.old.text offset ≡ Some left_bracket }

    ensures answer { result ≡ answer_of_scan declared_at text.old.text guard.old offset }
    ensures guards { guard.new ≡ guard_after_scan declared_at text.old.text guard.old offset }
    ensures counts { passing text.new 1 ≡ text_after_scan declared_at text.old guard.old offset }
{
    let begins = text.starts(offset + 1, b"CDATA[");
    if !begins {
        return None;
    }
    if offset < guard.cdata {
        return None;
    }
    let hit = find_or_shut(text, b"]]>", offset + 7, &mut guard.cdata)?;
    Some(hit + 3)
}

// The rest of a scan whose first byte, looked at already, is a letter.
fn scan_declaration(
    text: &mut CountedText,
    offset: usize,
    guard: &mut HtmlScanGuard,
) -> Option<usize>
    requires room { text.old.passed < 2 ^ 119 + 1 }
    requires fits_usize { length text.old.text < 2 ^ 64 }
    requires stands { declared_at text.old.text offset ≡ Begins Declaration }
    requires within { offset < length text.old.text }

    ensures answer { result ≡ answer_of_scan declared_at text.old.text guard.old offset }
    ensures guards { guard.new ≡ guard_after_scan declared_at text.old.text guard.old offset }
    ensures counts { passing text.new 1 ≡ text_after_scan declared_at text.old guard.old offset }
{
    if offset < guard.declaration {
        return None;
    }
    let hit = find_or_shut(text, b">", offset + 1, &mut guard.declaration)?;
    Some(hit + 1)
}
