//! Hostile texts, whole and cut, which are passed over once.
use super::run::budget;
use crate::asserts::{assert_answer, made};
use markdown_scanners_tree::inline_html::{HtmlRun, InlineHtmlRun, run_inline_html};
use std::alloc::{AllocError, Global};
use std::process::Abort;

fn is_after_opener(text: &[u8], offset: usize) -> bool {
    offset <= text.len() && (text[..offset].ends_with(b"<!") || text[..offset].ends_with(b"<?"))
}

fn write_offsets(offsets: &mut Vec<usize>, text: &[u8]) -> Result<(), AllocError> {
    for offset in 0..=text.len() {
        if is_after_opener(text, offset) {
            offsets.push(offset)?;
        }
    }
    Ok(())
}

// The offsets just after `<!` or `<?`, in rising order.
fn offsets_after_openers(alloc: Global, text: &[u8]) -> Result<Vec<usize>, AllocError> {
    let mut offsets = Vec::new(alloc);
    write_offsets(&mut offsets, text)?;
    Ok(offsets)
}

// Steps at all offsets after openers keep within the budget, each by itself.
fn assert_within_budget(rt: &impl Abort, text: &[u8], offsets: &[usize]) {
    let mut run = InlineHtmlRun::new(text);
    for offset in offsets {
        let stepped = run.step(*offset).is_ok();
        assert!(rt; stepped || *offset > text.len());
        assert!(rt; run.passed() <= budget(text.len(), run.steps()));
    }
}

// A part that is repeated, how often, how far after each offset its find is, the bytes passed over,
// and the budget.
type Hostile = (&'static [u8], usize, Option<usize>, u128, u128);

const HOSTILE_TEXTS: [Hostile; 6] = [
    (b"<!--", 5000, None, 24999, 120000),
    (b"<![CDATA[", 5000, None, 79991, 220000),
    (b"<!a", 5000, None, 19997, 100000),
    (b"<?", 5000, None, 9998, 80000),
    (b"<!--<![CDATA[<!a<?", 1000, None, 80952, 104000),
    (b"<!-->", 5000, Some(3), 25000, 140000),
];

// Each answer is this far after its offset.
fn are_so_long(answers: &[Option<usize>], offsets: &[usize], length: Option<usize>) -> bool {
    for (answer, offset) in answers.iter().zip(offsets.iter()) {
        let found = match answer {
            Some(end) => Some(end.wrapping_sub(*offset)),
            None => None,
        };
        if found != length {
            return false;
        }
    }
    answers.len() == offsets.len()
}

fn is_hostile_run(run: &HtmlRun, offsets: &[usize], hostile: &Hostile) -> bool {
    are_so_long(&run.answers, offsets, hostile.2) && run.passed == hostile.3 && run.stop.is_none()
}

fn assert_hostile(
    rt: &impl Abort,
    alloc: Global,
    hostile: &Hostile,
    text: &[u8],
    offsets: &[usize],
) {
    let run = made(rt, run_inline_html(alloc, text, offsets));
    let part = &hostile.0;
    assert_answer(rt, part, is_hostile_run(&run, offsets, hostile), true);
    assert_answer(rt, part, budget(text.len(), offsets.len()), hostile.4);
    assert_within_budget(rt, text, offsets);
}

#[test]
fn passes_over_hostile_texts_once(rt: HostRuntime) {
    let alloc = rt.alloc();
    for hostile in HOSTILE_TEXTS.iter() {
        let text = made(&rt, hostile.0.repeat(alloc, hostile.1));
        let offsets = made(&rt, offsets_after_openers(alloc, &text));
        assert_hostile(&rt, alloc, hostile, &text, &offsets);
    }
}

// The text's first and last 200 bytes are where it is cut off.
fn assert_cuts_within_budget(rt: &impl Abort, text: &[u8], offsets: &[usize]) {
    for cut in 0..200 {
        assert_within_budget(rt, &text[..text.len().min(cut)], offsets);
        assert_within_budget(rt, &text[..text.len().saturating_sub(cut)], offsets);
    }
}

#[test]
fn passes_over_cut_texts(rt: HostRuntime) {
    for hostile in HOSTILE_TEXTS.iter() {
        let text = made(&rt, hostile.0.repeat(rt.alloc(), hostile.1));
        let offsets = made(&rt, offsets_after_openers(rt.alloc(), &text));
        assert_cuts_within_budget(&rt, &text, &offsets);
    }
}
