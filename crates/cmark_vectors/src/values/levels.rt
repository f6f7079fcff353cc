//! The levels of headings: their numbers and their names.
use crate::asserts::{assert_same, assert_text};
use crate::bounds::printed;
use markdown_values::values::{HeadingLevel, InvalidHeadingLevel};
use std::alloc::{AllocError, Global};
use std::process::Abort;

fn level_of<T: TryInto<HeadingLevel, Error = InvalidHeadingLevel>>(
    number: T,
) -> Result<HeadingLevel, InvalidHeadingLevel> {
    number.try_into()
}

fn assert_level(rt: &impl Abort, alloc: Global, number: usize, level: HeadingLevel, name: &str) {
    assert_same(rt, HeadingLevel::try_from(number), Ok(level));
    assert_same(rt, level as usize, number);
    assert_same(rt, level.number(), number);
    assert_text(rt, printed(alloc, &level), name);
}

fn printed_wide(alloc: Global, level: HeadingLevel) -> Result<String, AllocError> {
    format!(in alloc; "<{:>4}>", level)
}

const LEVELS: &[(usize, HeadingLevel, &str)] = &[
    (1, HeadingLevel::H1, "h1"),
    (2, HeadingLevel::H2, "h2"),
    (3, HeadingLevel::H3, "h3"),
    (4, HeadingLevel::H4, "h4"),
    (5, HeadingLevel::H5, "h5"),
    (6, HeadingLevel::H6, "h6"),
];

fn assert_no_level(rt: &impl Abort, number: usize) {
    assert_same(
        rt,
        HeadingLevel::try_from(number),
        Err(InvalidHeadingLevel(number)),
    );
}

#[test]
fn levels_are_one_to_six(rt: HostRuntime) {
    for (number, level, name) in LEVELS {
        assert_level(&rt, rt.alloc(), *number, *level, name);
    }
    for number in [0, 7, usize::MAX] {
        assert_no_level(&rt, number);
    }
    assert_same(&rt, level_of(6_usize), Ok(HeadingLevel::H6));
    assert_text(&rt, printed_wide(rt.alloc(), HeadingLevel::H3), "<h3>");
}
