//! The numbers of alerts and of alignments, as the header of the C library has them.
use crate::asserts::assert_answer;
use markdown_values::values::{Alignment, BlockQuoteKind};

const ALERTS: [(u8, BlockQuoteKind); 5] = [
    (1, BlockQuoteKind::Note),
    (2, BlockQuoteKind::Tip),
    (3, BlockQuoteKind::Important),
    (4, BlockQuoteKind::Warning),
    (5, BlockQuoteKind::Caution),
];

#[test]
fn alerts_are_one_to_five(rt: HostRuntime) {
    for (number, kind) in ALERTS {
        assert_answer(&rt, &number, kind.number(), number);
        assert_answer(
            &rt,
            &number,
            BlockQuoteKind::from_number(number),
            Some(kind),
        );
    }
    for number in [0, 6, 255] {
        assert_answer(&rt, &number, BlockQuoteKind::from_number(number), None);
    }
}

const ALIGNMENTS: [(u8, Alignment); 4] = [
    (0, Alignment::None),
    (1, Alignment::Left),
    (2, Alignment::Center),
    (3, Alignment::Right),
];

#[test]
fn alignments_are_zero_to_three(rt: HostRuntime) {
    for (number, alignment) in ALIGNMENTS {
        assert_answer(&rt, &number, alignment.number(), number);
        assert_answer(
            &rt,
            &number,
            Alignment::from_number(number),
            Some(alignment),
        );
    }
    for number in [4, 255] {
        assert_answer(&rt, &number, Alignment::from_number(number), None);
    }
}
