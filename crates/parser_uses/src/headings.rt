//! Headings: their levels and their texts.
ghost use Rattle.std.specs.Prelude.{◌≡◌, ◌++◌, ℕ, replicate, IfSome, IfNone};
ghost use Rattle.markdown_values.specs.values.Headings.{heading_number};
ghost use Rattle.markdown_scanners_tree.specs.Ascii.{number_sign};
ghost use Rattle.markdown_scanners_tree.specs.SomeExactly.{SomeExactly};
ghost use Rattle.markdown_scanners_tree.specs.scanners.Headings.{IsAtxHeading, IsSetextUnderline};

use markdown_scanners_tree::scanners::{scan_atx_heading, scan_setext_heading};
use markdown_values::values::HeadingLevel;

/// The level of the ATX heading that a line is, and None where it is none.
pub fn heading_level(line: &[u8]) -> Option<HeadingLevel>
    ensures { SomeExactly (IsAtxHeading line.now) result }
{
    scan_atx_heading(line)
}

/// What stands in an ATX heading after its opening, which has one `#` for each level.
pub fn heading_text(line: &[u8]) -> Option<&[u8]>
    ensures found { IfSome result (λ text. (level : HeadingLevel) × IsAtxHeading line.now level
        × (line.now ≡ replicate (heading_number level) number_sign ++ text.now)) }
    ensures none { IfNone result ((level : HeadingLevel) → ¬ IsAtxHeading line.now level) }
{
    let level = scan_atx_heading(line)?;
    Some(&line[level as usize..])
}

/// The level that a line gives to the text above it, where the line is the underline of a heading.
pub fn level_above(line: &[u8]) -> Option<HeadingLevel>
    ensures found { IfSome result (λ level. (n : ℕ) × IsSetextUnderline line.now n level) }
    ensures none { IfNone result ((n : ℕ) (level : HeadingLevel)
        → ¬ IsSetextUnderline line.now n level) }
{
    let (_, level) = scan_setext_heading(line)?;
    Some(level)
}
