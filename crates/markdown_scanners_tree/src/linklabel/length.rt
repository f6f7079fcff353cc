//! How long a label is whose lines have no markers of containers.
ghost use Rattle.std.specs.Prelude.{◌≡◌, ◌≤◌, ◌-◌, Some, IfSome, length, slice_index};
ghost use Rattle.markdown_scanners_tree.specs.Ascii.{right_bracket};
ghost use Rattle.markdown_scanners_tree.specs.SomeExactly.{SomeExactly, IsOnly};
ghost use Rattle.markdown_scanners_tree.specs.linklabel.Length.{IsLabelLength};

use crate::linklabel::measure::measure_label;

// How many bytes the label takes whose opening bracket has been read, its closing bracket counted.
// No memory is asked for.
pub(crate) fn label_len(bytes: &[u8]) -> Option<usize>
    ensures found { SomeExactly (IsLabelLength bytes.now) result }
    ensures only { IsOnly (IsLabelLength bytes.now) result }
    ensures within { IfSome result (λ n. (1 ≤ n) × (n ≤ length bytes.now)) }
    ensures closed { IfSome result (λ n. slice_index bytes.now (n - 1) ≡ right_bracket) }
{
    let skips_nothing = |_rest: &[u8]| -> Option<usize>
        ensures { result ≡ Some 0 }
    { Some(0) };
    let measure = measure_label(bytes, &skips_nothing, false)?;
    Some(measure.close + 1)
}
