//! What a text is cut into, from left to right. (CommonMark 0.31.2, chapter 6)
use crate::delimiter_runs::DelimiterRun;

/// What a piece of a text is.
#[derive(Clone, Copy, Debug, PartialEq, Eq)]
pub enum PieceKind {
    /// Bytes that begin nothing else. (6.9)
    Text,
    /// A backslash and the ASCII punctuation that it escapes. (2.4)
    Escape,
    /// A hard line break, with the spaces around it. (6.7)
    HardBreak,
    /// A soft line break, with the spaces around it. (6.8)
    SoftBreak,
    /// A character reference. (2.5)
    Reference,
    /// A code span, with so many backticks on each side of its content. (6.1)
    Code(usize),
    /// An absolute URI in angle brackets. (6.5)
    Uri,
    /// An email address in angle brackets. (6.5)
    Email,
    /// Raw HTML. (6.6)
    Html,
    /// A delimiter run. (6.2)
    Delimiters(DelimiterRun),
    /// A left bracket, which may begin a link (6.3); or the head of a wikilink: two of them, its target,
    /// and the pipe after that if there is one.
    LinkOpener,
    /// The same after an exclamation mark, which may begin an image. (6.4)
    ImageOpener,
    /// A right bracket, with what follows the link text of the link or image that it ends, if it ends one. (6.3)
    Closer,
}

/// A piece of a text.
#[derive(Clone, Copy, Debug, PartialEq, Eq)]
pub struct Piece {
    /// What it is.
    pub kind: PieceKind,
    /// Where it begins in the text.
    pub start: usize,
    /// Where it ends.
    pub end: usize,
}
