//! Line starts in the caller's storage, and the calls on them.
ghost use Rattle.std.specs.Prelude.{ℕ, ◌≡◌, ◌==◌, ◌≤◌, ◌<◌, ◌-◌, ◌⊎◌, List, IsTrue, IfSome, IfNone};
ghost use Rattle.markdown_values.specs.declared.values.BlockQuoteKind.{BlockQuoteKind as Quoted};
ghost use Rattle.markdown_scanners_tree.specs.Ascii.{greater_than_sign};
ghost use Rattle.markdown_scanners_tree.specs.Bytes.{begins_with, is_at_line_end, is_space_or_tab};
ghost use Rattle.markdown_scanners_tree.specs.line.KnownBreaks.{learnt_by_marker};
ghost use Rattle.markdown_scanners_tree.specs.line.Outcome.{after_all_space, after_quote, alert_outcome, definition_outcome, item_outcome, task_outcome};
ghost use Rattle.markdown_scanners_tree.specs.line.State.{IsLineState, after_space, space_within, unscanned};
ghost use Rattle.markdown_scanners_c.specs.LineStarts.{state_on, known_breaks, IsTrueStart, OfState, IsNext, found_status, no_columns, columns_returned};
ghost use Rattle.markdown_scanners_c.specs.LineStarts.{no_item, item_returned, no_task, task_returned, no_alert, alert_returned};
ghost use Rattle.markdown_scanners_c.specs.private.NoSpace.{HasNoSpace};
ghost use Rattle.markdown_scanners_c.specs.Status.{ok, nothing, bad_state, too_large};

use crate::status::{BAD_STATE, NOTHING, OK, TOO_LARGE};
use markdown_scanners_tree::line::{KnownBreaks, LARGEST_INDENT, LineStart};
use markdown_values::values::BlockQuoteKind;

/// `struct mds_line_start` of C: an offset in a line, and what is known of the line from there on.
#[repr(C)]
pub struct Start {
    pub offset: usize,
    pub pending: usize,
    pub phase: usize,
    pub none_before: usize,
    pub after_break: usize,
}

impl Start {
    // The library's line start at the offset in these bytes.
    pub(crate) fn on<'a>(&self, bytes: &'a [u8]) -> Option<LineStart<'a>>
        ensures state { IfSome result (λ line. line ≡ state_on bytes.now self.now) }
        ensures is_state { IfSome result (λ line. IsLineState (state_on bytes.now self.now)) }
        ensures none { IfNone result (¬ IsLineState (state_on bytes.now self.now)) }
    {
        LineStart::resumed(bytes, self.offset, self.pending, self.phase)
    }

    // Whether this is an offset in these bytes, with nothing pending and a byte that is no space: most
    // often it is. It is asked first, so that most calls make no line start.
    fn has_no_space(&self, bytes: &[u8]) -> bool
        ensures { IsTrue result → IsLineState (state_on bytes.now self.now)
            × HasNoSpace (state_on bytes.now self.now)
            × (after_all_space (state_on bytes.now self.now) ≡ state_on bytes.now self.now) }
    {
        if self.pending > 0 || self.phase > 3 || self.offset >= bytes.len() {
            return false;
        }
        !is_space(bytes[self.offset])
    }

    // Keeps the offset of the library's line start.
    pub(crate) fn keep(&mut self, line: &LineStart)
        ensures state { state_on line.now.bytes self.new ≡ line.now }
        ensures breaks { known_breaks self.new ≡ known_breaks self.old }
        ensures next { self.old.offset ≤ line.now.offset → IsNext line.now.bytes self.old self.new }
    {
        self.offset = line.bytes_scanned();
        self.pending = line.remaining_space();
        self.phase = line.phase();
    }

    // What is known of the thematic breaks.
    pub(crate) fn breaks(&self) -> KnownBreaks
        ensures { result ≡ known_breaks self.now }
    {
        KnownBreaks {
            none_before: self.none_before,
            after_break: self.after_break,
        }
    }

    // Keeps what is known of the thematic breaks.
    pub(crate) fn learn(&mut self, breaks: &KnownBreaks)
        ensures breaks { known_breaks self.new ≡ breaks.now }
        ensures offset { self.new.offset ≡ self.old.offset }
        ensures state { (bytes : List ℕ) → state_on bytes self.new ≡ state_on bytes self.old }
    {
        self.none_before = breaks.none_before;
        self.after_break = breaks.after_break;
    }
}

// Whether the byte is a space or a tab.
fn is_space(byte: u8) -> bool
    ensures { result ≡ is_space_or_tab byte }
{
    matches!(byte, b' ' | b'\t')
}

// The status of a call that found something or nothing.
fn status_of(found: bool) -> u32
    ensures { result ≡ found_status found }
{
    if found { OK } else { NOTHING }
}

/// Takes up to so many columns of space. (CommonMark 0.31.2, section 2.2)
#[unsafe(no_mangle)]
pub extern "C" fn mds_line_space(bytes: &[u8], start: &mut Start, count: usize) -> u32
    ensures refused { ¬ IsLineState (state_on bytes.now start.old)
        → (result ≡ bad_state) × (start.new ≡ start.old) }
    ensures answer { OfState bytes.now start.old (λ s.
        result ≡ found_status (space_within count s == count)) }
    ensures state { OfState bytes.now start.old (λ s.
        state_on bytes.now start.new ≡ after_space count s) }
    ensures next { OfState bytes.now start.old (λ s. IsNext bytes.now start.old start.new) }
    ensures kept { known_breaks start.new ≡ known_breaks start.old }
{
    if start.has_no_space(bytes) {
        return status_of(count == 0);
    }
    take_all_of(bytes, start, count)
}

// The same where some space may be. Not inlined, as the last thing that the call does: so the call
// itself saves no registers.
#[inline(never)]
fn take_all_of(bytes: &[u8], start: &mut Start, count: usize) -> u32
    ensures refused { ¬ IsLineState (state_on bytes.now start.old)
        → (result ≡ bad_state) × (start.new ≡ start.old) }
    ensures answer { OfState bytes.now start.old (λ s.
        result ≡ found_status (space_within count s == count)) }
    ensures state { OfState bytes.now start.old (λ s.
        state_on bytes.now start.new ≡ after_space count s) }
    ensures next { OfState bytes.now start.old (λ s. IsNext bytes.now start.old start.new) }
    ensures kept { known_breaks start.new ≡ known_breaks start.old }
{
    let Some(taken) = take_space(bytes, start, count) else {
        return BAD_STATE;
    };
    status_of(taken == count)
}

/// `struct mds_columns` of C: columns, where the status is `OK`.
#[repr(C)]
pub struct Columns {
    pub status: u32,
    pub columns: usize,
}

// No columns, with this status.
fn no_columns(status: u32) -> Columns
    ensures { result ≡ no_columns status }
{
    Columns { status, columns: 0 }
}

/// Takes up to so many columns of space, and says how many. (CommonMark 0.31.2, section 2.2)
#[unsafe(no_mangle)]
pub extern "C" fn mds_line_space_up_to(bytes: &[u8], start: &mut Start, count: usize) -> Columns
    ensures refused { ¬ IsLineState (state_on bytes.now start.old)
        → (result ≡ no_columns bad_state) × (start.new ≡ start.old) }
    ensures answer { OfState bytes.now start.old (λ s.
        result ≡ record { status = ok; columns = space_within count s }) }
    ensures state { OfState bytes.now start.old (λ s.
        state_on bytes.now start.new ≡ after_space count s) }
    ensures next { OfState bytes.now start.old (λ s. IsNext bytes.now start.old start.new) }
    ensures kept { known_breaks start.new ≡ known_breaks start.old }
{
    if start.has_no_space(bytes) {
        return no_columns(OK);
    }
    let Some(columns) = take_space(bytes, start, count) else {
        return no_columns(BAD_STATE);
    };
    Columns {
        status: OK,
        columns,
    }
}

// Takes up to so many columns of space, and says how many; None where no line start has these
// numbers. Not inlined, or each call would save registers for it, and most take nothing.
#[inline(never)]
fn take_space(bytes: &[u8], start: &mut Start, count: usize) -> Option<usize>
    ensures is_state { IfSome result (λ _. IsLineState (state_on bytes.now start.old)) }
    ensures answer { IfSome result (λ columns.
        columns ≡ space_within count (state_on bytes.now start.old)) }
    ensures state { IfSome result (λ _.
        state_on bytes.now start.new ≡ after_space count (state_on bytes.now start.old)) }
    ensures next { IfSome result (λ _. IsNext bytes.now start.old start.new) }
    ensures none { IfNone result (¬ IsLineState (state_on bytes.now start.old)) }
    ensures unchanged { IfNone result (start.new ≡ start.old) }
    ensures kept { known_breaks start.new ≡ known_breaks start.old }
{
    let mut line = start.on(bytes)?;
    let columns = line.scan_space_upto(count);
    start.keep(&line);
    Some(columns)
}

/// Passes all spaces and tabs, each as one column, and drops pending columns. (CommonMark 0.31.2,
/// section 2.2)
#[unsafe(no_mangle)]
pub extern "C" fn mds_line_all_space(bytes: &[u8], start: &mut Start) -> u32
    ensures refused { ¬ IsLineState (state_on bytes.now start.old)
        → (result ≡ bad_state) × (start.new ≡ start.old) }
    ensures answer { OfState bytes.now start.old (λ s. result ≡ ok) }
    ensures state { OfState bytes.now start.old (λ s.
        state_on bytes.now start.new ≡ after_all_space s) }
    ensures next { OfState bytes.now start.old (λ s. IsNext bytes.now start.old start.new) }
    ensures kept { known_breaks start.new ≡ known_breaks start.old }
{
    if start.has_no_space(bytes) {
        return OK;
    }
    let Some(mut line) = start.on(bytes) else {
        return BAD_STATE;
    };
    line.scan_all_space();
    start.keep(&line);
    OK
}

/// Whether the line ends at the offset. (CommonMark 0.31.2, section 2.1)
#[unsafe(no_mangle)]
pub extern "C" fn mds_line_is_at_end(bytes: &[u8], start: &Start) -> u32
    ensures refused { ¬ IsLineState (state_on bytes.now start.now) → result ≡ bad_state }
    ensures answer { OfState bytes.now start.now (λ s.
        result ≡ found_status (is_at_line_end (unscanned s))) }
{
    let Some(line) = start.on(bytes) else {
        return BAD_STATE;
    };
    status_of(line.is_at_eol())
}

/// Passes a block quote marker, with at most one column of space. (CommonMark 0.31.2, section 5.1)
#[unsafe(no_mangle)]
pub extern "C" fn mds_line_quote(bytes: &[u8], start: &mut Start) -> u32
    ensures refused { ¬ IsLineState (state_on bytes.now start.old)
        → (result ≡ bad_state) × (start.new ≡ start.old) }
    ensures answer { OfState bytes.now start.old (λ s.
        result ≡ found_status (begins_with (λ b. b == greater_than_sign) (unscanned s))) }
    ensures state { OfState bytes.now start.old (λ s.
        state_on bytes.now start.new ≡ after_quote s) }
    ensures next { OfState bytes.now start.old (λ s. IsNext bytes.now start.old start.new) }
    ensures kept { known_breaks start.new ≡ known_breaks start.old }
{
    let Some(mut line) = start.on(bytes) else {
        return BAD_STATE;
    };
    let found = line.scan_blockquote_marker();
    start.keep(&line);
    status_of(found)
}

/// `struct mds_line_item` of C: a list item's marker, where the status is `OK`.
#[repr(C)]
pub struct LineItem {
    pub status: u32,
    pub delimiter: u8,
    pub start: u64,
    pub indent: usize,
}

// No list item, with this status.
fn no_item(status: u32) -> LineItem
    ensures { result ≡ no_item status }
{
    LineItem {
        status,
        delimiter: 0,
        start: 0,
        indent: 0,
    }
}

/// Passes a list item's marker and the columns that belong to it. (CommonMark 0.31.2, section 5.2)
#[unsafe(no_mangle)]
pub extern "C" fn mds_line_list(bytes: &[u8], start: &mut Start, indent: usize) -> LineItem
    ensures refused { ¬ IsLineState (state_on bytes.now start.old)
        → (result ≡ no_item bad_state) × (start.new ≡ start.old) }
    ensures large { IsLineState (state_on bytes.now start.old) → usize.MAX - 16 < indent
        → (result ≡ no_item too_large) × (start.new ≡ start.old) }

    // Where what is known of the line is true.
    ensures answer { OfState bytes.now start.old (λ s. indent ≤ usize.MAX - 16
        → IsTrueStart bytes.now start.old → result ≡ item_returned (item_outcome indent s).answer) }
    ensures state { OfState bytes.now start.old (λ s. indent ≤ usize.MAX - 16
        → IsTrueStart bytes.now start.old
        → state_on bytes.now start.new ≡ (item_outcome indent s).state) }

    // Whatever is known.
    ensures found { OfState bytes.now start.old (λ s. indent ≤ usize.MAX - 16
        → (result.status ≡ ok)
        ⊎ ((result ≡ no_item nothing) × (state_on bytes.now start.new ≡ s))) }
    ensures next { OfState bytes.now start.old (λ s. IsNext bytes.now start.old start.new) }
    ensures learnt { OfState bytes.now start.old (λ s. indent ≤ usize.MAX - 16
        → known_breaks start.new
        ≡ learnt_by_marker bytes.now start.old.offset (known_breaks start.old)) }
{
    let Some(mut line) = start.on(bytes) else {
        return no_item(BAD_STATE);
    };
    if indent > LARGEST_INDENT {
        return no_item(TOO_LARGE);
    }
    let mut breaks = KnownBreaks {
        none_before: start.none_before,
        after_break: start.after_break,
    };
    let item = line.scan_list_marker_with_breaks(indent, &mut breaks);
    start.keep(&line);
    start.none_before = breaks.none_before;
    start.after_break = breaks.after_break;
    item_of(item)
}

// A list item as C has it.
fn item_of(item: Option<(u8, u64, usize)>) -> LineItem
    ensures { result ≡ item_returned item }
{
    match item {
        Some((delimiter, start, indent)) => LineItem {
            status: OK,
            delimiter,
            start,
            indent,
        },
        None => no_item(NOTHING),
    }
}

/// Passes a definition's marker and the columns that belong to it. (An extension of pulldown-cmark)
#[unsafe(no_mangle)]
pub extern "C" fn mds_line_definition(bytes: &[u8], start: &mut Start, indent: usize) -> Columns
    ensures refused { ¬ IsLineState (state_on bytes.now start.old)
        → (result ≡ no_columns bad_state) × (start.new ≡ start.old) }
    ensures large { IsLineState (state_on bytes.now start.old) → usize.MAX - 16 < indent
        → (result ≡ no_columns too_large) × (start.new ≡ start.old) }
    ensures answer { OfState bytes.now start.old (λ s. indent ≤ usize.MAX - 16
        → result ≡ columns_returned (definition_outcome indent s).answer) }
    ensures state { OfState bytes.now start.old (λ s. indent ≤ usize.MAX - 16
        → state_on bytes.now start.new ≡ (definition_outcome indent s).state) }
    ensures next { OfState bytes.now start.old (λ s. IsNext bytes.now start.old start.new) }
    ensures kept { known_breaks start.new ≡ known_breaks start.old }
{
    let Some(mut line) = start.on(bytes) else {
        return no_columns(BAD_STATE);
    };
    if indent > LARGEST_INDENT {
        return no_columns(TOO_LARGE);
    }
    let columns = line.scan_definition_list_definition_marker_with_indent(indent);
    start.keep(&line);
    columns_of(columns)
}

// Columns as C has them.
fn columns_of(columns: Option<usize>) -> Columns
    ensures { result ≡ columns_returned columns }
{
    match columns {
        Some(columns) => Columns {
            status: OK,
            columns,
        },
        None => no_columns(NOTHING),
    }
}

/// `struct mds_task` of C: a task's box, where the status is `OK`.
#[repr(C)]
pub struct Task {
    pub status: u32,
    pub checked: bool,
}

/// Passes a task list item's box. (GitHub Flavored Markdown 0.29, section 5.3)
#[unsafe(no_mangle)]
pub extern "C" fn mds_line_task(bytes: &[u8], start: &mut Start) -> Task
    ensures refused { ¬ IsLineState (state_on bytes.now start.old)
        → (result ≡ no_task bad_state) × (start.new ≡ start.old) }
    ensures answer { OfState bytes.now start.old (λ s.
        result ≡ task_returned (task_outcome s).answer) }
    ensures state { OfState bytes.now start.old (λ s.
        state_on bytes.now start.new ≡ (task_outcome s).state) }
    ensures next { OfState bytes.now start.old (λ s. IsNext bytes.now start.old start.new) }
    ensures kept { known_breaks start.new ≡ known_breaks start.old }
{
    let Some(mut line) = start.on(bytes) else {
        return no_task(BAD_STATE);
    };
    let checked = line.scan_task_list_marker();
    start.keep(&line);
    task_of(checked)
}

// No task list marker, with this status.
fn no_task(status: u32) -> Task
    ensures { result ≡ no_task status }
{
    Task {
        status,
        checked: false,
    }
}

// A task list marker as C has it.
fn task_of(checked: Option<bool>) -> Task
    ensures { result ≡ task_returned checked }
{
    match checked {
        Some(checked) => Task {
            status: OK,
            checked,
        },
        None => no_task(NOTHING),
    }
}

/// `struct mds_alert` of C: the number of an alert, where the status is `OK`.
#[repr(C)]
pub struct Alert {
    pub status: u32,
    pub kind: u32,
}

/// Passes the line of an alert. (GitHub Docs, alerts)
#[unsafe(no_mangle)]
pub extern "C" fn mds_line_alert(bytes: &[u8], start: &mut Start) -> Alert
    ensures refused { ¬ IsLineState (state_on bytes.now start.old)
        → (result ≡ no_alert bad_state) × (start.new ≡ start.old) }
    ensures answer { OfState bytes.now start.old (λ s.
        result ≡ alert_returned (alert_outcome s).answer) }
    ensures state { OfState bytes.now start.old (λ s.
        state_on bytes.now start.new ≡ (alert_outcome s).state) }
    ensures next { OfState bytes.now start.old (λ s. IsNext bytes.now start.old start.new) }
    ensures kept { known_breaks start.new ≡ known_breaks start.old }
{
    let Some(mut line) = start.on(bytes) else {
        return no_alert(BAD_STATE);
    };
    let kind = line.scan_blockquote_tag();
    start.keep(&line);
    alert_of(kind)
}

// No alert, with this status.
fn no_alert(status: u32) -> Alert
    ensures { result ≡ no_alert status }
{
    Alert { status, kind: 0 }
}

// An alert as C has it.
fn alert_of(kind: Option<BlockQuoteKind>) -> Alert
    ensures { result ≡ alert_returned kind }
{
    match kind {
        Some(kind) => Alert {
            status: OK,
            kind: u32::from(kind.number()),
        },
        None => no_alert(NOTHING),
    }
}
