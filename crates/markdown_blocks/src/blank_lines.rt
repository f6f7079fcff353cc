//! Blank lines: spaces and tabs alone. (CommonMark 0.31.2, section 2.1)
ghost use Rattle.std.specs.Prelude.{◌≡◌};
ghost use Rattle.markdown_blocks.specs.blank_lines.BlankLines.{is_blank};

use markdown_scanners_tree::scanners::{scan_eol, scan_spaces_and_tabs};

/// Whether the line is blank. A form feed or a vertical tab in it is text.
pub(crate) fn is_blank(line: &[u8]) -> bool
    ensures { result ≡ is_blank line.now }
{
    let space = scan_spaces_and_tabs(line);
    scan_eol(&line[space..]).is_some()
}
