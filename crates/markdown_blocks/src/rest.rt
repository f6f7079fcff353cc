//! What a line has after its containers.
ghost use Rattle.std.specs.Prelude.{◌≡◌, ◌≤◌, length};
ghost use Rattle.markdown_scanners_tree.specs.line.State.{after_space};
ghost use Rattle.markdown_blocks.specs.containers.Containers.{rest_at};

use markdown_scanners_tree::line::LineStart;
use std::marker::Model;

/// What a line has after its containers: at most four columns of space, and the text after that, with
/// its line ending.
#[derive(Drop)]
pub(crate) struct Rest<'a> {
    pub(crate) indent: usize,
    pub(crate) text: &'a [u8],
}

impl<'a> Model for Rest<'a> {
    ghost use Rattle.markdown_blocks.specs.containers.Containers.{Rest};

    ghost Value = { Rest };

    ghost view = { λ r. record { indent = r.indent; text = r.text.now } };
}

/// The rest of the line at an offset, which stands after its space then.
#[inline(always)]
pub(crate) fn scan_rest<'a>(line: &'a [u8], start: &mut LineStart) -> Rest<'a>
    requires { start.old.bytes ≡ line.now }
    ensures rest { result ≡ rest_at start.old }
    ensures offset { start.new ≡ after_space 4 start.old }
    ensures bytes { start.new.bytes ≡ line.now }
    ensures forward { start.old.offset ≤ start.new.offset }
    ensures within { start.new.offset ≤ length line.now }
{
    let indent = start.scan_space_upto(4);
    Rest {
        indent,
        text: &line[start.bytes_scanned()..],
    }
}
