//! Content that is whole lines of its block.
ghost use Rattle.std.specs.Prelude.{◌≡◌, ◌≤◌, [], List, ℕ, length, IfSome};
ghost use Rattle.markdown_scanners_tree.specs.scanners.TextLines.{lines_of};
ghost use Rattle.markdown_blocks.specs.content.Left.{IsRun};
ghost use Rattle.markdown_blocks.specs.content.Parts.{AreParts, Part};
ghost use Rattle.markdown_blocks.specs.declared.blocks.BlockKind.TheVariants.{Fenced, Html};
ghost use Rattle.markdown_scanners_tree.specs.declared.scanners.html_kinds.HtmlBlockKind.{HtmlBlockKind};

use crate::blocks::BlockKind;
use crate::containers::OpenContainers;
use crate::content::line_endings::has_return;
use crate::content::parts::read_inner;
use crate::taken::Extent;
use markdown_scanners_tree::line::LineStart;

/// Where the content begins and ends in the lines of a block in no container, where it is known to be
/// whole lines: of HTML all of them, and of fenced code that is not indented those after the first, but
/// for the closing fence. No carriage return stands in them.
#[inline(always)]
pub(crate) fn whole_lines(
    lines: &[u8],
    kind: BlockKind,
    outer: &OpenContainers,
) -> Option<(usize, usize)>
    ensures { IfSome result (λ r. (kept : ℕ) → (parts : List Part)
        × AreParts kind outer.now.containers kept (lines_of lines.now) parts
        × IsRun lines.now parts r.0 r.1) }
{
    if outer.count() > 0 {
        return None;
    }
    match kind {
        BlockKind::Html(_) => html_lines(lines, kind, outer),
        BlockKind::Fenced(..) => fenced_lines(lines, kind, outer),
        _ => None,
    }
}

// The same of HTML.
fn html_lines(lines: &[u8], kind: BlockKind, outer: &OpenContainers) -> Option<(usize, usize)>
    requires none { outer.now.containers ≡ [] }
    requires html { (which : HtmlBlockKind) × (kind ≡ Html which) }
    ensures { IfSome result (λ r. (kept : ℕ) → (parts : List Part)
        × AreParts kind outer.now.containers kept (lines_of lines.now) parts
        × IsRun lines.now parts r.0 r.1) }
{
    if has_return(lines) {
        return None;
    }
    Some((0, lines.len()))
}

// The same of fenced code.
fn fenced_lines(lines: &[u8], kind: BlockKind, outer: &OpenContainers) -> Option<(usize, usize)>
    requires none { outer.now.containers ≡ [] }
    requires fenced { (count : ℕ) × (byte : ℕ) × (kind ≡ Fenced count byte) }
    ensures { IfSome result (λ r. (kept : ℕ) → (parts : List Part)
        × AreParts kind outer.now.containers kept (lines_of lines.now) parts
        × IsRun lines.now parts r.0 r.1) }
{
    if has_return(lines) {
        return None;
    }
    let (line, first) = Extent::nothing().next(lines)?;
    let mut start = LineStart::new(line);
    if start.scan_space_upto(4) > 0 {
        return None;
    }
    let read = read_inner(lines, first, kind, outer);
    Some((first.bytes, read.bytes))
}
