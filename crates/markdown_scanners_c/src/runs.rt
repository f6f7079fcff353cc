//! Runs of scans of inline HTML.
ghost use Rattle.std.specs.Prelude.{◌≡◌, ◌≤◌, ◌<◌, ◌+◌, ◌*◌, length, take, IfOk, OnErr};
ghost use Rattle.markdown_scanners_tree.specs.inline_html.run.Passed.{bytes_passed};
ghost use Rattle.markdown_scanners_tree.specs.inline_html.run.Run.{new_run, run_stop};
ghost use Rattle.markdown_scanners_c.specs.Runs.{end_number, stop_status, run_ends, AreNumbersWritten, IsHtmlRun};

use crate::status::{INSIDE_FIND, NO_MEMORY, NO_OPENER, NONE, NOT_RISING, OK, TOO_SHORT};
use markdown_scanners_tree::inline_html::{HtmlStop, run_inline_html};
use std::alloc::{AllocError, Global};

/// `struct mds_html_run` of C: how many ends a run found.
#[repr(C)]
pub struct HtmlEnds {
    pub status: u32,
    pub count: usize,
}

/// Writes the ends of what begins at the offsets in turn. (CommonMark 0.31.2, section 6.6)
#[unsafe(no_mangle)]
pub extern "C" fn mds_run_inline_html(
    alloc: Global,
    bytes: &[u8],
    offsets: &[usize],
    ends: &mut [usize],
) -> HtmlEnds
    ensures run { IsHtmlRun bytes.now offsets.now ends.old ends.new result }
    ensures budget { bytes_passed bytes.now (take result.count offsets.now)
        ≤ 4 * length bytes.now + 8 * result.count }
    ensures room { result.count ≤ length offsets.now }
{
    match ends_of(alloc, bytes, offsets) {
        Ok((found, done)) => HtmlEnds {
            status: write_numbers(&found, ends, done),
            count: found.len(),
        },
        Err(_) => HtmlEnds {
            status: NO_MEMORY,
            count: 0,
        },
    }
}

// Writes all numbers where they fit, and answers the status.
#[tactic(auto, unfolding(crate::specs::Runs::AreNumbersWritten))]
fn write_numbers(numbers: &[usize], buffer: &mut [usize], done: u32) -> u32
    ensures { AreNumbersWritten numbers.now buffer.old buffer.new done result }
{
    if numbers.len() > buffer.len() {
        return TOO_SHORT;
    }
    buffer[..numbers.len()].copy_from_slice(numbers);
    done
}

// The ends that are found at the offsets in turn, and the reason why one is refused, if one is.
fn ends_of(alloc: Global, bytes: &[u8], offsets: &[usize]) -> Result<(Vec<usize>, u32), AllocError>
    ensures ends { IfOk result (λ r. r.0.items ≡ run_ends bytes.now offsets.now) }
    ensures status { IfOk result (λ r. r.1
        ≡ stop_status (run_stop (new_run bytes.now) 0 offsets.now)) }
    ensures budget { IfOk result (λ r. bytes_passed bytes.now (take (length r.0.items) offsets.now)
        ≤ 4 * length bytes.now + 8 * length r.0.items) }
    ensures count { IfOk result (λ r. length r.0.items ≤ length offsets.now) }
    ensures asked { OnErr result (0 < length (run_ends bytes.now offsets.now)) }
{
    let run = run_inline_html(alloc, bytes, offsets)?;
    if run.answers.is_empty() {
        return Ok((Vec::new(alloc), status_of(&run.stop)));
    }
    let ends: Vec<usize> = run
        .answers
        .iter()
        .map(|answer| end_of(*answer))
        .collect(alloc)?;
    Ok((ends, status_of(&run.stop)))
}

// An end as C has it.
fn end_of(found: Option<usize>) -> usize
    ensures { result ≡ end_number found }
{
    found.unwrap_or(NONE)
}

// The status of a run that stopped so.
fn status_of(stop: &Option<(usize, HtmlStop)>) -> u32
    ensures { result ≡ stop_status stop.now }
{
    match stop {
        None => OK,
        Some((_, HtmlStop::NoOpener)) => NO_OPENER,
        Some((_, HtmlStop::NotRising)) => NOT_RISING,
        Some((_, HtmlStop::InsideFind)) => INSIDE_FIND,
    }
}
