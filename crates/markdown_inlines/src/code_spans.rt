//! Code spans. (CommonMark 0.31.2, section 6.1)
ghost use Rattle.std.specs.Prelude.{◌≡◌, ◌<◌, ◌≤◌, ◌+◌, ◌^◌, ℕ, length, IfSome, IfNone};
ghost use Rattle.std.specs.List.{prefix_len};
ghost use Rattle.markdown_scanners_tree.specs.SomeExactly.{SomeExactly, IsOnly};
ghost use Rattle.markdown_inlines.specs.CodeSpans.{IsCodeSpan, IsBacktickString, HasNone, is_backtick};

use crate::backticks::Backticks;
use std::ops::Range;

/// A code span at the front of a text.
#[derive(Clone, Debug, Drop, PartialEq, Eq)]
pub struct CodeSpan {
    /// Where its content stands, between its backtick strings.
    pub content: Range<usize>,
    /// How many bytes it has in all.
    pub len: usize,
}

/// The code span at the front of the bytes, before which no backtick stands.
///
/// A string of backticks that no later one of its length closes begins none: it is read to the end
/// of the bytes for that.
pub fn scan_code_span(bytes: &[u8]) -> Option<CodeSpan>
    // The one span that stands there is answered.
    ensures found { SomeExactly (IsCodeSpan bytes.now) result }
    ensures only { IsOnly (IsCodeSpan bytes.now) result }

    // Its content stands between strings of one length.
    ensures within { IfSome result (λ span. span.len ≤ length bytes.now) }
    ensures content { IfSome result (λ span. (0 < span.content.start)
        × (span.content.start < span.content.end)
        × (span.content.end + span.content.start ≡ span.len)) }
{
    let text = Backticks::new(bytes);
    let mut passed = 0;
    let fence = text.front_len(&mut passed);
    span_after(&text, fence, &mut passed)
}

// The code span that begins with all the backticks at the front, of which there are so many. All
// after them up to its end is passed over.
pub(crate) fn span_after(text: &Backticks, fence: usize, passed: &mut u128) -> Option<CodeSpan>
    requires opens { fence ≡ prefix_len is_backtick text.now }
    requires fits { length text.now < 2 ^ 64 }
    requires room { passed.old < 2 ^ 110 }
    ensures found { SomeExactly (IsCodeSpan text.now) result }
    ensures only { IsOnly (IsCodeSpan text.now) result }
    ensures within { IfSome result (λ span. span.len ≤ length text.now) }
    ensures content { IfSome result (λ span. (0 < span.content.start)
        × (span.content.start < span.content.end)
        × (span.content.end + span.content.start ≡ span.len)) }
    ensures none { IfNone result ((to : ℕ) → HasNone text.now fence fence to) }
    ensures counts { IfSome result (λ span. passed.new + fence ≡ passed.old + span.len) }
{
    if fence == 0 {
        return None;
    }
    let close = find_string(text, fence, passed)?;
    Some(CodeSpan {
        content: fence..close,
        len: close + fence,
    })
}

// The offset of the first string of so many backticks after one of them at the front.
fn find_string(text: &Backticks, fence: usize, passed: &mut u128) -> Option<usize>
    requires some { 0 < fence }
    requires opens { fence ≡ prefix_len is_backtick text.now }
    requires fits { length text.now < 2 ^ 64 }
    requires room { passed.old < 2 ^ 110 }
    ensures found { IfSome result (λ close. (fence ≤ close) × (close < length text.now)
        × IsBacktickString text.now close fence × HasNone text.now fence fence close) }
    ensures within { IfSome result (λ close. close + fence ≤ length text.now) }
    ensures none { IfNone result ((to : ℕ) → HasNone text.now fence fence to) }
    ensures counts { IfSome result (λ close. passed.new ≡ passed.old + close) }
{
    let mut offset = fence;
    while let Some((start, run)) = text.next_string(offset, passed) {
        if run == fence {
            return Some(start);
        }
        offset = start + run;
    }
    None
}
