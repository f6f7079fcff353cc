//! How many columns of a line a cell takes.
ghost use Rattle.std.specs.Prelude.{◌≡◌, ℕ, List};

use std::str::from_utf8;
use unicode_width::UnicodeWidthStr;

/// How wide the cells of a table are.
pub trait CellWidths {
    // The width of a cell with this text.
    ghost width: { Self → List ℕ → ℕ };

    /// The width of a cell with this text.
    fn width_of(&self, cell: &[u8]) -> usize
        ensures { result ≡ width self.now cell.now };
}

/// The columns that a cell takes in a terminal, by Unicode Standard Annex 11.
#[derive(Clone, Copy)]
pub struct DisplayWidths;

impl CellWidths for DisplayWidths {
    ghost use Rattle.page_tables.specs.Widths.{display_width};

    ghost width = { λ _. display_width };

    fn width_of(&self, cell: &[u8]) -> usize {
        match from_utf8(cell) {
            Ok(text) => text.width(),
            Err(_) => 0,
        }
    }
}
