//! The lines of a page, while it is read.
ghost use Rattle.std.specs.Prelude.{◌≡◌, ◌<◌, ◌≤◌, ◌+◌, ◌-◌, ◌++◌, [], List, ℕ};
ghost use Rattle.std.specs.Prelude.{length, take, drop, IsTrue, MatchBool, IfOk, IfSome, IfNone, OnOk, string_bytes};
ghost use Rattle.markdown_scanners_tree.specs.scanners.TextLines.{lines_of};
ghost use Rattle.markdown_blocks.specs.blocks.Pages.{root};
ghost use Rattle.markdown_blocks.specs.byte_order_mark.ByteOrderMark.{text_of, text_start};
ghost use Rattle.markdown_blocks.specs.taken.Whole.{AreWhole};
ghost use Rattle.page_blocks.specs.Going.{HasPrinted, Prints};
ghost use Rattle.page_blocks.specs.Beginning.{IsFresh};
ghost use Rattle.page_blocks.specs.Printed.{PrintsPage, front_of};
ghost use Rattle.page_blocks.specs.Printers.{printed_of};

use crate::arguments::Form;
use crate::printer::Printer;
use markdown_blocks::events::BlockEvents;
use markdown_blocks::taken::Extent;
use markdown_blocks::walk::Walk;
use markdown_blocks::whole::whole_lines;
use markdown_values::values::Extensions;
use std::alloc::{AllocError, Global};

/// How far a page is printed: the open containers, the content of a block that may begin with a link
/// reference definition, and the lines.
#[derive(Drop)]
pub(crate) struct Printing {
    walk: Walk,
    content: Vec<u8>,
    pub(crate) printer: Printer,
}

impl Printing {
    /// Nothing is printed of a page.
    pub(crate) fn new(alloc: Global, form: Form, extensions: Extensions) -> Printing
        ensures form { result.printer.form ≡ form }
        ensures walk { result.walk ≡ root extensions }
        ensures at { printed_of result.printer ≡ front_of 0 }
        ensures nothing { string_bytes result.printer.text ≡ [] }
    {
        Printing {
            walk: Walk::new_ext(alloc, extensions),
            content: Vec::new(alloc),
            printer: Printer::new(alloc, form),
        }
    }

    /// Begins with the text of the page, before which so many bytes stand.
    pub(crate) fn begin(&mut self, start: usize)
        ensures begun { (page written : List ℕ) → start ≡ text_start page
            → IsFresh written self.old → HasPrinted page written self.new (lines_of (text_of page)) }
        ensures lines { self.new.printer.at.lines ≡ 0 }
        ensures bytes { self.new.printer.at.bytes ≡ start }
        ensures form { self.new.printer.form ≡ self.old.printer.form }
        ensures asked { self.new.walk ≡ self.old.walk }
    {
        self.printer.at = Extent {
            lines: 0,
            bytes: start,
        };
    }

    /// Tells the blocks at the front of the text that end there whatever bytes follow it, and all
    /// of the page where the input has ended. Answers how many bytes the blocks have.
    pub(crate) fn print(
        &mut self,
        alloc: Global,
        text: &[u8],
        has_ended: bool,
    ) -> Result<usize, AllocError>
        requires lines { self.old.printer.at.lines + length text.now ≤ usize.MAX }
        requires bytes { self.old.printer.at.bytes + length text.now ≤ usize.MAX }
        ensures printed { IfOk result (λ count. ¬ IsTrue has_ended → (more : List ℕ)
            → Prints self.old (lines_of (text.now ++ more))
            self.new (lines_of (drop count text.now ++ more))) }
        ensures ended { OnOk result (IsTrue has_ended → (page written : List ℕ)
            → HasPrinted page written self.old (lines_of text.now)
            → PrintsPage self.old.walk.extensions self.old.printer.form page
            (written ++ string_bytes self.new.printer.text)) }
        ensures within { IfOk result (λ count. count ≤ length text.now) }
        ensures lines { IfOk result (λ count. ¬ IsTrue has_ended →
            self.new.printer.at.lines ≤ self.old.printer.at.lines + count) }
        ensures bytes { IfOk result (λ count. ¬ IsTrue has_ended →
            self.new.printer.at.bytes ≡ self.old.printer.at.bytes + count) }
        ensures form { OnOk result (self.new.printer.form ≡ self.old.printer.form) }
        ensures asked { OnOk result
            (self.new.walk.extensions ≡ self.old.walk.extensions) }
    {
        let (lines, _) = text.split_at(front_of(text, has_ended));
        let count = self.print_lines(alloc, lines, has_ended)?;
        if has_ended {
            let depth = self.walk.containers().len();
            self.printer.print_end(alloc, depth)?;
        }
        Ok(count)
    }

    // The same of whole lines.
    fn print_lines(
        &mut self,
        alloc: Global,
        lines: &[u8],
        has_ended: bool,
    ) -> Result<usize, AllocError>
        requires lines { self.old.printer.at.lines + length lines.now ≤ usize.MAX }
        requires bytes { self.old.printer.at.bytes + length lines.now ≤ usize.MAX }
        ensures printed { IfOk result (λ count.
            (more : List (List ℕ)) → (IsTrue has_ended → more ≡ [])
            → Prints self.old (lines_of lines.now ++ more)
            self.new (lines_of (drop count lines.now) ++ more)) }
        ensures all { IfOk result (λ count. IsTrue has_ended → count ≡ length lines.now) }
        ensures within { IfOk result (λ count. count ≤ length lines.now) }
        ensures lines { IfOk result (λ count.
            self.new.printer.at.lines ≤ self.old.printer.at.lines + count) }
        ensures bytes { IfOk result (λ count.
            self.new.printer.at.bytes ≡ self.old.printer.at.bytes + count) }
        ensures form { OnOk result (self.new.printer.form ≡ self.old.printer.form) }
        ensures asked { OnOk result
            (self.new.walk.extensions ≡ self.old.walk.extensions) }
    {
        let mut count = 0;
        while let Some(more) = self.print_block(alloc, &lines[count..], has_ended)? {
            count += more;
        }
        Ok(count)
    }

    // Tells the block at the front of the lines, if there is one that no line after them changes.
    // Answers how many bytes it has.
    fn print_block(
        &mut self,
        alloc: Global,
        lines: &[u8],
        has_ended: bool,
    ) -> Result<Option<usize>, AllocError>
        requires lines { self.old.printer.at.lines + length lines.now ≤ usize.MAX }
        requires bytes { self.old.printer.at.bytes + length lines.now ≤ usize.MAX }
        ensures printed { IfOk result (λ found. IfSome found (λ count.
            (more : List (List ℕ)) → (IsTrue has_ended → more ≡ [])
            → Prints self.old (lines_of lines.now ++ more)
            self.new (lines_of (drop count lines.now) ++ more))) }
        ensures some { IfOk result (λ found. IfSome found (λ count. 0 < count)) }
        ensures within { IfOk result (λ found. IfSome found (λ count.
            count ≤ length lines.now)) }
        ensures lines { IfOk result (λ found. IfSome found (λ count.
            self.new.printer.at.lines ≤ self.old.printer.at.lines + count)) }
        ensures bytes { IfOk result (λ found. IfSome found (λ count.
            self.new.printer.at.bytes ≡ self.old.printer.at.bytes + count)) }
        ensures none { IfOk result (λ found. IfNone found (IsTrue has_ended → lines.now ≡ [])) }
        ensures same_lines { IfOk result (λ found.
            IfNone found (self.new.printer ≡ self.old.printer)) }
        ensures same_walk { IfOk result (λ found. IfNone found (self.new.walk ≡ self.old.walk)) }
        ensures form { OnOk result (self.new.printer.form ≡ self.old.printer.form) }
        ensures asked { OnOk result
            (self.new.walk.extensions ≡ self.old.walk.extensions) }
    {
        let depth = self.walk.containers().len();
        let Some(step) = self
            .walk
            .next_block(alloc, &mut self.content, lines, has_ended)?
        else {
            return Ok(None);
        };
        let count = step.block.taken.bytes;
        let events = BlockEvents::new(step, self.printer.at, depth);
        self.printer
            .print_block(alloc, self.walk.containers(), &self.content, events)?;
        Ok(Some(count))
    }
}

// How many bytes at the front of the text are lines that no byte after it changes.
fn front_of(text: &[u8], has_ended: bool) -> usize
    ensures front { MatchBool has_ended (result ≡ length text.now) (AreWhole text.now result) }
    ensures within { result ≤ length text.now }
{
    if has_ended {
        return text.len();
    }
    whole_lines(text)
}
