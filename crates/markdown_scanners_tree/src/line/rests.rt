//! What is left of a line, its tabs written out. (CommonMark 0.31.2, section 2.2, tabs)
ghost use Rattle.std.specs.Prelude.{◌≡◌, ◌≤◌, ◌<◌, ◌+◌, ◌-◌, ◌*◌, ◌++◌, drop, length, replicate, IfOk, IfErr, OnErr};
ghost use Rattle.markdown_scanners_tree.specs.Ascii.{space};
ghost use Rattle.markdown_scanners_tree.specs.Columns.{written_out};
ghost use Rattle.markdown_scanners_tree.specs.line.State.{rest_of};

use crate::line::LineStart;
use crate::line::tabs::{SPACES, put, put_byte, width_at};
use crate::scanners::is_line_ending;
use std::alloc::{AllocError, Global};

impl LineStart<'_> {
    /// The length of what is left of the line, in bytes, as `write_rest` writes it.
    ///
    /// Each byte may be a tab of four columns, so the length may be more than a `usize` holds.
    pub fn rest_len(&self) -> u128
        ensures length { result ≡ length (rest_of self.now) }
        ensures within { result
            ≤ self.now.pending + 4 * (length self.now.bytes - self.now.offset) }
    {
        self.pending as u128 + written_len(&self.bytes[self.offset..], self.phase())
    }

    /// Writes what is left of the line at the front of the buffer: the pending columns as spaces,
    /// then the bytes from the offset on, where each tab before a line ending is written as spaces
    /// up to its tab stop. Answers how many bytes that is.
    ///
    /// It shows the columns that the calls count. The text of a block keeps its tabs, and has spaces
    /// for the pending columns alone. (CommonMark 0.31.2, section 2.2)
    ///
    /// # Errors
    ///
    /// `rest_len()`, where the buffer is shorter. Nothing is written then.
    pub fn write_rest(&self, buffer: &mut [u8]) -> Result<usize, u128>
        ensures written { IfOk result (λ count.
            buffer.new ≡ rest_of self.now ++ drop count buffer.old) }
        ensures count { IfOk result (λ count. count ≡ length (rest_of self.now)) }
        ensures within { IfOk result (λ count. count ≤ length buffer.old) }
        ensures refused { IfErr result (λ needed. length buffer.old < needed) }
        ensures needed { IfErr result (λ needed. needed ≡ length (rest_of self.now)) }
        ensures unchanged { OnErr result (buffer.new ≡ buffer.old) }
    {
        let needed = self.rest_len();
        if needed > buffer.len() as u128 {
            return Err(needed);
        }
        self.put_rest(buffer);
        Ok(needed as usize)
    }

    // Writes what is left of the line at the front of the buffer, which has room for it.
    fn put_rest(&self, buffer: &mut [u8])
        requires { length (rest_of self.now) ≤ length buffer.old }
        ensures { buffer.new
            ≡ rest_of self.now ++ drop (length (rest_of self.now)) buffer.old }
    {
        write_out(
            &self.bytes[self.offset..],
            self.pending,
            self.phase(),
            buffer,
        );
    }

    // What is left of the line, in memory of its exact length.
    pub(in crate::line) fn written_rest(&self, alloc: Global) -> Result<Vec<u8>, AllocError>
        ensures { IfOk result (λ rest. rest.items ≡ rest_of self.now) }
    {
        let Ok(length) = usize::try_from(self.rest_len()) else {
            return Err(AllocError);
        };
        let mut rest = vec![in alloc; 0; length]?;
        self.put_rest(&mut rest);
        Ok(rest)
    }
}

// How many bytes those from this column on have, where their tabs before a line ending are spaces.
fn written_len(bytes: &[u8], phase: usize) -> u128
    requires { phase < 4 }
    ensures length { result ≡ length (written_out phase bytes.now) }
    ensures within { result ≤ 4 * length bytes.now }
{
    let begin = phase as u128;
    let mut column = begin;
    for (index, byte) in bytes.iter().enumerate() {
        if is_line_ending(*byte) {
            return column - begin + (bytes.len() - index) as u128;
        }
        column += width_at(column, *byte) as u128;
    }
    column - begin
}

// Writes spaces at the front of the buffer, then the bytes, their tabs before a line ending as
// spaces.
fn write_out(bytes: &[u8], pending: usize, phase: usize, buffer: &mut [u8])
    requires pending { pending < 4 }
    requires phase { phase < 4 }
    requires room { pending + length (written_out phase bytes.now) ≤ length buffer.old }
    ensures { buffer.new ≡ (replicate pending space ++ written_out phase bytes.now)
        ++ drop (pending + length (written_out phase bytes.now)) buffer.old }
{
    put(buffer, 0, &SPACES[..pending]);
    let mut at = pending;
    let mut column = phase as u128;
    for (index, byte) in bytes.iter().enumerate() {
        if is_line_ending(*byte) {
            put(buffer, at, &bytes[index..]);
            return;
        }
        let width = put_byte(buffer, at, column, *byte);
        at += width;
        column += width as u128;
    }
}
