//! Runs of the command for inline HTML over hostile texts cut near their ends.
use super::html::HTML;
use super::{DONE, assert_end, assert_same, made};
use std::alloc::Global;
use std::process::Abort;

// Up to this many bytes are cut off.
const MOST: usize = 200;

// The bytes passed over, and the bound, as the last lines of several runs tell them, added up.
type Sums = (u128, u128);

// A part that is repeated, how often, and the sums where bytes are cut off the front, and off the
// end.
type Cut = (&'static [u8], usize, Sums, Sums);

// The sums are those that `tests/differential/cuts.py` counts.
const CUTS: &[Cut] = &[
    (b"<!--", 5000, (4974300, 23878800), (4974700, 23879600)),
    (
        b"<![CDATA[",
        5000,
        (15961032, 43901016),
        (15962799, 43902264),
    ),
    (b"<!a", 5000, (3972332, 19865464), (3972600, 19866000)),
    (b"<?", 5000, (1979400, 15838800), (1979500, 15838800)),
    (
        b"<!--<![CDATA[<!a<?",
        1000,
        (16099337, 20683768),
        (16100177, 20683592),
    ),
    (b"<!-->", 5000, (4979500, 27886800), (4979780, 27887760)),
];

fn without_first(text: &[u8], count: usize) -> &[u8] {
    &text[count.min(text.len())..]
}

fn without_last(text: &[u8], count: usize) -> &[u8] {
    &text[..text.len().saturating_sub(count)]
}

// The numbers of the last line.
fn last_numbers(output: &[u8]) -> Option<Sums> {
    let (_, numbers) = str::from_utf8(output).ok()?.rsplit_once("passed ")?;
    let (passed, bound) = numbers.strip_suffix("\n")?.split_once(" of ")?;
    Some((passed.parse().ok()?, bound.parse().ok()?))
}

// The numbers of the last line that a run prints.
fn run_html(rt: &impl Abort, alloc: Global, mut input: &[u8]) -> Sums {
    let mut output = Vec::new(alloc);
    assert_end(rt, alloc, HTML, &mut input, &mut output, DONE);
    last_numbers(&output).expect(rt, "no last line")
}

// The same added to sums, once they keep the bound.
fn add_run(rt: &impl Abort, alloc: Global, sums: Sums, input: &[u8]) -> Sums {
    let (passed, bound) = run_html(rt, alloc, input);
    assert!(rt;
        passed <= bound,
        "more bytes passed over than the bound allows"
    );
    (sums.0.saturating_add(passed), sums.1.saturating_add(bound))
}

// The sums over all cuts, off the front and off the end.
fn sums_of(rt: &impl Abort, alloc: Global, text: &[u8]) -> (Sums, Sums) {
    let mut front = (0, 0);
    let mut end = (0, 0);
    for count in 1..=MOST {
        front = add_run(rt, alloc, front, without_first(text, count));
        end = add_run(rt, alloc, end, without_last(text, count));
    }
    (front, end)
}

// The sums of a text are these, where it is cut off the front, and off the end.
fn assert_cut(rt: &impl Abort, alloc: Global, (part, count, front, end): Cut) {
    let text = made(rt, part.repeat(alloc, count));
    let sums = sums_of(rt, alloc, &text);
    assert_same(rt, (part, sums), (part, (front, end)));
}

#[test]
fn passes_over_cut_texts_once(rt: HostRuntime) {
    for cut in CUTS {
        assert_cut(&rt, rt.alloc(), *cut);
    }
}
