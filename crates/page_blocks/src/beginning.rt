//! Where the text of a page begins, while the page is read.
ghost use Rattle.std.specs.Prelude.{◌≡◌, ◌≤◌, ◌+◌, ◌++◌, [], List, ℕ, length, drop, IsTrue, IfOk, OnOk, string_bytes};
ghost use Rattle.page_blocks.specs.Beginning.{HasPrintedPage, PrintsMore};
ghost use Rattle.page_blocks.specs.Printed.{PrintsPage, front_of};
ghost use Rattle.page_blocks.specs.Printers.{printed_of};

use crate::arguments::Form;
use crate::page::Printing;
use markdown_blocks::byte_order_mark::{BYTE_ORDER_MARK, text_start};
use markdown_values::values::Extensions;
use std::alloc::{AllocError, Global};

/// How far a page is printed, which may begin with a byte order mark.
#[derive(Drop)]
pub(crate) struct PagePrinting {
    // Whether so much of the page is read that its text has begun.
    has_begun: bool,
    pub(crate) text: Printing,
}

impl PagePrinting {
    /// Nothing is printed of a page.
    pub(crate) fn new(alloc: Global, form: Form, extensions: Extensions) -> PagePrinting
        ensures printed { (page : List ℕ) → HasPrintedPage page [] result page }
        ensures form { result.text.printer.form ≡ form }
        ensures asked { result.text.walk.extensions ≡ extensions }
        ensures at { printed_of result.text.printer ≡ front_of 0 }
        ensures nothing { string_bytes result.text.printer.text ≡ [] }
    {
        PagePrinting {
            has_begun: false,
            text: Printing::new(alloc, form, extensions),
        }
    }

    /// Tells the blocks at the front of the bytes that end there whatever bytes follow them, and all
    /// of the page where the input has ended. Answers how many bytes the blocks have, with a byte
    /// order mark before the first of them.
    pub(crate) fn print(
        &mut self,
        alloc: Global,
        bytes: &[u8],
        has_ended: bool,
    ) -> Result<usize, AllocError>
        requires lines { self.old.text.printer.at.lines + length bytes.now ≤ usize.MAX }
        requires bytes { self.old.text.printer.at.bytes + length bytes.now ≤ usize.MAX }
        ensures printed { IfOk result (λ count. ¬ IsTrue has_ended → (more : List ℕ)
            → PrintsMore self.old (bytes.now ++ more)
            self.new (drop count bytes.now ++ more)) }
        ensures ended { OnOk result (IsTrue has_ended → (page written : List ℕ)
            → HasPrintedPage page written self.old bytes.now
            → PrintsPage self.old.text.walk.extensions self.old.text.printer.form page
            (written ++ string_bytes self.new.text.printer.text)) }
        ensures within { IfOk result (λ count. count ≤ length bytes.now) }
        ensures lines { IfOk result (λ count. ¬ IsTrue has_ended →
            self.new.text.printer.at.lines ≤ self.old.text.printer.at.lines + count) }
        ensures bytes { IfOk result (λ count. ¬ IsTrue has_ended →
            self.new.text.printer.at.bytes ≤ self.old.text.printer.at.bytes + count) }
        ensures form { OnOk result (self.new.text.printer.form ≡ self.old.text.printer.form) }
        ensures asked { OnOk result
            (self.new.text.walk.extensions ≡ self.old.text.walk.extensions) }
    {
        if self.has_begun {
            return self.text.print(alloc, bytes, has_ended);
        }
        if !has_ended && bytes.len() < BYTE_ORDER_MARK.len() {
            return Ok(0);
        }
        let start = text_start(bytes);
        self.has_begun = true;
        self.text.begin(start);
        let count = self.text.print(alloc, &bytes[start..], has_ended)?;
        Ok(start + count)
    }
}
