//! Line starts that are made anew, and what is known of thematic breaks beside them.
use crate::asserts::assert_answer;
use markdown_scanners_tree::line::LineAnswer::{Count, Flag};
use markdown_scanners_tree::line::LineCall::{Eol, Quote, Space, Upto};
use markdown_scanners_tree::line::{
    KnownBreaks, LARGEST_INDENT, LineAnswer, LineCall, LineStart, LineStop,
};
use std::process::Abort;

// A place, the columns pending there, and its column modulo four.
type Place = (usize, usize, usize);

#[test]
fn no_line_start_has_other_numbers(rt: HostRuntime) {
    for at in [(2, 0, 0), (1, 4, 0), (1, 0, 4)] {
        let start = LineStart::resumed(b"x", at.0, at.1, at.2);
        assert!(rt; start.is_none(), "at {at:?}");
    }
}

fn place_of(start: &LineStart<'_>) -> Place {
    (
        start.bytes_scanned(),
        start.remaining_space(),
        start.phase(),
    )
}

// Up to six columns of space from this place: the column before, how many, and where they end.
fn space_from(pending: usize, phase: usize) -> Option<(usize, usize, Place)> {
    let mut start = LineStart::resumed(b"-\t\tx", 1, pending, phase)?;
    let before = start.phase();
    let taken = start.scan_space_upto(6);
    Some((before, taken, place_of(&start)))
}

// The columns pending and the column; how many are taken, and where they end.
const SPACE: [(usize, usize, usize, Place); 4] = [
    (0, 1, 6, (3, 1, 0)),
    (0, 0, 6, (3, 2, 0)),
    (0, 3, 5, (3, 0, 0)),
    (3, 3, 6, (3, 2, 0)),
];

// The column decides how far a tab reaches (2.2).
#[test]
fn tabs_go_on_from_the_column(rt: HostRuntime) {
    for (pending, phase, taken, ends) in SPACE {
        let space = space_from(pending, phase);
        assert_answer(&rt, &(pending, phase), space, Some((phase, taken, ends)));
    }
}

// The bullet or delimiter of an item, its number, and the indent of its content.
type Item = Option<(u8, u64, usize)>;

// Before which place no thematic break begins, and after which one does.
fn known(breaks: &KnownBreaks) -> (usize, usize) {
    (breaks.none_before, breaks.after_break)
}

// An item at a place, by a line start that is made anew, and what is known of breaks from then on.
fn item_at(line: &[u8], place: usize, breaks: &mut KnownBreaks) -> Option<(Item, (usize, usize))> {
    let mut start = LineStart::resumed(line, place, 0, 0)?;
    let item = start.scan_list_marker_with_breaks(0, breaks);
    Some((item, known(breaks)))
}

fn assert_items(
    rt: &impl Abort,
    line: &[u8],
    breaks: &mut KnownBreaks,
    rows: &[(usize, Item, (usize, usize))],
) {
    for (place, item, learnt) in rows {
        assert_answer(
            rt,
            place,
            item_at(line, *place, breaks),
            Some((*item, *learnt)),
        );
    }
}

// A thematic break is no item (4.1), and what was read to tell is kept.
#[test]
fn breaks_are_known_from_then_on(rt: HostRuntime) {
    let items = [
        (0, Some((b'-', 0, 2)), (4, 0)),
        (2, Some((b'-', 0, 2)), (4, 0)),
    ];
    assert_items(&rt, b"- - x", &mut KnownBreaks::new(), &items);

    let mut breaks = KnownBreaks::new();
    let items = [(0, Some((b'+', 0, 2)), (0, 0)), (2, None, (0, 3))];
    assert_items(&rt, b"+ * * *", &mut breaks, &items);
    for (place, begins) in [(2, true), (3, false), (7, false)] {
        assert_answer(&rt, &place, breaks.begins_break(b"+ * * *", place), begins);
    }
}

// A call of a run, and what it answers.
type Row = (LineCall, Result<LineAnswer, LineStop>);

// The call from a place, on a line start that is made anew, has this answer. Goes to where it ends.
fn is_call(line: &[u8], at: &mut Place, row: &Row, breaks: &mut KnownBreaks) -> bool {
    let Some(mut start) = LineStart::resumed(line, at.0, at.1, at.2) else {
        return false;
    };
    let answer = start.call_with_breaks(&row.0, breaks);
    *at = place_of(&start);
    answer == row.1
}

// Calls from a place, each on a line start that is made anew; and where they end.
fn assert_calls(rt: &impl Abort, line: &[u8], at: Place, rows: &[Row], ends: (usize, usize)) {
    let mut breaks = KnownBreaks::new();
    let mut at = at;
    for row in rows {
        assert_answer(rt, &row.0, is_call(line, &mut at, row, &mut breaks), true);
    }
    assert_answer(rt, &line, (at.0, at.1), ends);
}

const INSIDE_A_TAB: [Row; 7] = [
    (Eol, Err(LineStop::SpacePending)),
    (Quote, Err(LineStop::SpacePending)),
    (LineCall::List(usize::MAX), Err(LineStop::SpacePending)),
    (Upto(9), Ok(Count(2))),
    (LineCall::List(1), Ok(LineAnswer::List(Some((b'-', 0, 3))))),
    (Space(1), Ok(Flag(false))),
    (Eol, Ok(Flag(false))),
];

// Columns of a tab are pending, and calls that take no space are refused (2.2).
#[test]
fn calls_go_on_inside_a_tab(rt: HostRuntime) {
    assert_calls(&rt, b">\t- x", (2, 2, 0), &INSIDE_A_TAB, (4, 0));
}

const FROM_A_COLUMN: [Row; 4] = [
    (Quote, Ok(Flag(true))),
    (LineCall::Definition(2), Ok(LineAnswer::Definition(Some(6)))),
    (LineCall::Definition(0), Ok(LineAnswer::Definition(None))),
    (Quote, Ok(Flag(false))),
];

const TOO_LITTLE_SPACE: [Row; 1] = [(Space(2), Ok(Flag(false)))];

const SPACE_ENOUGH: [Row; 1] = [(Space(2), Ok(Flag(true)))];

#[test]
fn calls_go_on_from_a_column(rt: HostRuntime) {
    assert_calls(&rt, b"> :   x", (0, 0, 1), &FROM_A_COLUMN, (6, 0));
    assert_calls(&rt, b"\tx", (0, 0, 3), &TOO_LITTLE_SPACE, (1, 0));
    assert_calls(&rt, b"\tx", (0, 0, 1), &SPACE_ENOUGH, (1, 1));
}

const LARGE_INDENTS: [Row; 3] = [
    (
        LineCall::List(usize::MAX - 15),
        Err(LineStop::IndentTooLarge),
    ),
    (
        LineCall::Definition(usize::MAX),
        Err(LineStop::IndentTooLarge),
    ),
    (
        LineCall::List(usize::MAX - 16),
        Ok(LineAnswer::List(Some((b'-', 0, usize::MAX - 14)))),
    ),
];

#[test]
fn large_indents_are_refused(rt: HostRuntime) {
    assert_answer(&rt, &"largest", LARGEST_INDENT, usize::MAX - 16);
    assert_calls(&rt, b"- x", (0, 0, 0), &LARGE_INDENTS, (2, 0));
}

// Calls, what they answer, and what is known of breaks from then on.
const OF_BREAKS: [(Row, (usize, usize)); 2] = [
    (
        (LineCall::List(usize::MAX), Err(LineStop::IndentTooLarge)),
        (0, 0),
    ),
    ((LineCall::List(0), Ok(LineAnswer::List(None))), (0, 1)),
];

// A thematic break is no item, whatever begins it (4.1), and a refused call learns nothing.
#[test]
fn calls_learn_of_breaks(rt: HostRuntime) {
    let mut breaks = KnownBreaks::new();
    let mut start = LineStart::new(b"* * *");
    for (row, learnt) in &OF_BREAKS {
        let answer = start.call_with_breaks(&row.0, &mut breaks);
        assert_answer(&rt, &row.0, answer == row.1, true);
        assert_answer(&rt, &row.0, known(&breaks), *learnt);
        assert_answer(&rt, &row.0, start.bytes_scanned(), 0);
    }
}
