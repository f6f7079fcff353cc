//! What both passes over a label ask at a byte.
ghost use Rattle.std.specs.Prelude.{◌≡◌, ◌≤◌, ◌+◌, drop, length, IfSome};
ghost use Rattle.markdown_scanners_tree.specs.SomeExactly.{SomeExactly, IsOnly};
ghost use Rattle.markdown_scanners_tree.specs.Handler.{Skips, IsAfterLineEnding, IsCallableAfterLineEndings};
ghost use Rattle.markdown_scanners_tree.specs.linklabel.private.Pass.{starts_dropped};
ghost use Rattle.markdown_scanners_tree.specs.linklabel.private.Steady.{IsSteadyAfterLines};

// Whether a backslash stands at the front that a cell of a table drops.
pub(crate) fn is_dropped(rest: &[u8], is_in_table: bool) -> bool
    ensures { result ≡ starts_dropped is_in_table rest.now }
{
    is_in_table && matches!(rest, [b'\\', b'|', ..])
}

// How many bytes the handler skips at the start of a line, if the text goes on there.
pub(crate) fn skip_at<F: Fn(&[u8]) -> Option<usize>>(
    bytes: &[u8],
    offset: usize,
    handler: &F,
) -> Option<usize>
    requires callable { IsCallableAfterLineEndings F.Fn handler.now bytes.now }
    requires steady { IsSteadyAfterLines F.Fn handler.now bytes.now }
    requires there { offset ≤ length bytes.now }
    requires after { IsAfterLineEnding bytes.now (drop offset bytes.now) }
    ensures found { SomeExactly (Skips F.Fn handler.now (drop offset bytes.now)) result }
    ensures only { IsOnly (Skips F.Fn handler.now (drop offset bytes.now)) result }
    ensures within { IfSome result (λ skip. offset + skip ≤ length bytes.now) }
{
    handler(&bytes[offset..])
}
