//! The indent of a line.
ghost use Rattle.std.specs.Prelude.{ℕ, ◌≡◌, ◌+◌, ◌-◌, ◌/◌, ◌<◌, ◌≤◌, length};
ghost use Rattle.markdown_scanners_tree.specs.Columns.{next_tab_stop};
ghost use Rattle.markdown_scanners_tree.specs.scanners.Indent.{IsIndent};

/// The offset of the last byte that was looked at, and the columns of the spaces and tabs before
/// it, with tab stops of four. (CommonMark 0.31.2, section 2.2.)
///
/// A space that fills `max` columns is counted and ends the scan. A tab that would go past `max`
/// ends it unread, as does each other byte. The offset is 0 for an empty text. `max` is at most
/// `usize::MAX / 4`.
pub fn calc_indent(text: &[u8], max: usize) -> (usize, usize)
    requires { max ≤ usize.MAX / 4 }
    ensures indent { IsIndent text.now max result.0 result.1 }
    ensures only { (other : ℕ × ℕ) → IsIndent text.now max other.0 other.1 → other ≡ result }
    ensures within { result.0 ≤ length text.now }
{
    let mut column = 0;
    let mut i = 0;
    while i < text.len() {
        match text[i] {
            b' ' if column + 1 == max => return (i, max),
            b' ' => column += 1,
            b'\t' if last_of_tab(column) < max => column = last_of_tab(column) + 1,
            _ => return (i, column),
        }
        i += 1;
    }
    (i.saturating_sub(1), column)
}

// The last column that a tab at this column takes.
fn last_of_tab(column: usize) -> usize
    requires { column < usize.MAX - 4 }
    ensures { result + 1 ≡ next_tab_stop column }
{
    column - column % 4 + 3
}
