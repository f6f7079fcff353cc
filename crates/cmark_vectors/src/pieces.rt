//! The item of the trees that the tests build.
use markdown_values::tree::SpanItem;

/// A piece of text, by its name and the bytes that it covers.
#[derive(Clone, Default, Drop)]
pub struct Piece {
    pub name: char,
    pub start: usize,
    pub end: usize,
    pub escaped: bool,
}

impl SpanItem for Piece {
    ghost span = { λ p. record { start = p.start; end = p.end; escaped = p.escaped } };

    ghost with_range = { λ p start end. record p { start = start; end = end } };

    ghost use Rattle.std.specs.Prelude.{refl};

    ghost sets_range = { λ p start end. refl };

    fn start(&self) -> usize {
        self.start
    }

    fn end(&self) -> usize {
        self.end
    }

    fn set_range(&mut self, start: usize, end: usize) {
        self.start = start;
        self.end = end;
    }

    fn backslash_escaped(&self) -> bool {
        self.escaped
    }
}
