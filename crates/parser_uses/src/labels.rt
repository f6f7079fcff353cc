//! Labels: read, kept, and looked up by their keys.
ghost use Rattle.std.specs.Prelude.{◌≡◌, ℕ, drop, nat_eq, false, find, IfOk, IfSome};
ghost use Rattle.std.specs.Option.{option_copied};
ghost use Rattle.std.specs.Cmp.Lexicographic.{pointwise};
ghost use Rattle.markdown_scanners_tree.specs.linklabel.Key.{label_key};
ghost use Rattle.markdown_scanners_tree.specs.linklabel.Label.{ReadsBack, ends_in_backslash};

use markdown_scanners_tree::linklabel::{LinkLabel, scan_link_label_rest};
use markdown_scanners_tree::scanners::scan_blockquote_start;
use markdown_values::strings::CowStr;
use std::alloc::{AllocError, Global};

/// A link reference definition: its label, and where it leads.
#[derive(Drop)]
pub struct Definition<'a> {
    pub label: LinkLabel<'a>,
    pub destination: CowStr<'a>,
}

/// Whether two labels match: they do exactly where their keys are equal.
pub fn do_match(one: &LinkLabel, other: &LinkLabel) -> bool
    ensures { result ≡ pointwise nat_eq (label_key one.now) (label_key other.now) }
{
    *one == *other
}

/// The first definition of a label, which is the one that counts.
pub fn definition_of<'d>(
    definitions: &'d [Definition<'d>],
    label: &LinkLabel,
) -> Option<&'d Definition<'d>>
    ensures { option_copied result
        ≡ find (λ d. pointwise nat_eq (label_key d.label) (label_key label.now)) definitions.now }
{
    definitions.iter().find(|d| d.label == *label)
}

/// The label whose opening bracket has been read, where its line has all of it, and how many bytes it takes.
pub fn label_in_line<'t>(
    alloc: Global,
    text: &'t str,
) -> Result<Option<(usize, LinkLabel<'t>)>, AllocError>
    ensures reads_back { IfOk result (λ found. IfSome found (λ r.
        ends_in_backslash r.1 ≡ false → ReadsBack r.1)) }
{
    let no_next_line = |_: &[u8]| -> Option<usize> { None };
    let Some((taken, label)) = scan_link_label_rest(alloc, text, &no_next_line, false)? else {
        return Ok(None);
    };
    let label = LinkLabel::new(alloc, label)?;
    Ok(Some((taken, label)))
}

/// The label over the lines of a block quote whose opening bracket has been read, without the markers of its lines, and
/// what stands after its closing bracket. A line without a marker ends the text.
#[tactic(auto, using(markdown_scanners_tree::proofs::ForCallers::ascii_fronts))]
pub fn label_in_quote<'t>(
    alloc: Global,
    text: &'t str,
) -> Result<Option<(LinkLabel<'t>, &'t str)>, AllocError>
    ensures reads_back { IfOk result (λ found. IfSome found (λ r.
        ends_in_backslash r.0 ≡ false → ReadsBack r.0)) }
    ensures after { IfOk result (λ found. IfSome found (λ r. (taken : ℕ)
        × (r.1.now ≡ drop taken text.entry.now))) }
{
    let after_marker = |rest: &[u8]| scan_blockquote_start(rest);
    let Some((taken, label)) = scan_link_label_rest(alloc, text, &after_marker, false)? else {
        return Ok(None);
    };
    let (_, after) = text.split_at(taken);
    let label = LinkLabel::new(alloc, label)?;
    Ok(Some((label, after)))
}
