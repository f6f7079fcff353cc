//! What is left of a line, its tabs written out.
ghost use Rattle.std.specs.Prelude.{◌≡◌, ◌≤◌, ◌<◌, ◌+◌, ◌-◌, ◌*◌, length};
ghost use Rattle.markdown_scanners_tree.specs.line.State.{IsLineState, rest_of, unscanned};
ghost use Rattle.markdown_scanners_c.specs.LineRests.{IsWrittenRest};
ghost use Rattle.markdown_scanners_c.specs.LineStarts.{OfState, state_on};
ghost use Rattle.markdown_scanners_c.specs.Status.{bad_state};
ghost use Rattle.markdown_scanners_c.specs.Texts.{IsNoText};

use crate::line_starts::Start;
use crate::status::{BAD_STATE, NONE, OK, TOO_SHORT};
use crate::texts::{Text, no_text};

/// Writes what is left of a line: the pending columns as spaces, then the bytes from the offset on,
/// their tabs before a line ending as spaces. (CommonMark 0.31.2, section 2.2)
#[tactic(auto, using(markdown_scanners_tree::proofs::ForCallers::rest_within))]
#[unsafe(no_mangle)]
pub extern "C" fn mds_line_rest(bytes: &[u8], start: &Start, buffer: &mut [u8]) -> Text
    ensures refused { ¬ IsLineState (state_on bytes.now start.now)
        → IsNoText bad_state result × (buffer.new ≡ buffer.old) }
    ensures taken { OfState bytes.now start.now (λ s. result.taken ≡ length (unscanned s)) }
    ensures rest { OfState bytes.now start.now (λ s.
        IsWrittenRest (rest_of s) buffer.old buffer.new result.status result.length) }
    ensures room { OfState bytes.now start.now (λ s.
        result.length ≤ s.pending + 4 * (length bytes.now - s.offset)) }
{
    let Some(line) = start.on(bytes) else {
        return no_text(BAD_STATE);
    };
    let taken = bytes.len() - start.offset;
    match line.write_rest(buffer) {
        Ok(length) => Text {
            status: OK,
            taken,
            length,
        },
        Err(needed) => Text {
            status: TOO_SHORT,
            taken,
            length: length_returned(needed),
        },
    }
}

// A length as far as a `size_t` goes.
fn length_returned(length: u128) -> usize
    ensures fits { length ≤ usize.MAX → result ≡ length }
    ensures large { usize.MAX < length → result ≡ usize.MAX }
{
    if length > NONE as u128 {
        NONE
    } else {
        length as usize
    }
}
