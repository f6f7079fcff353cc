//! What is reported of a page.

/// What is wrong.
#[derive(Clone, Copy, Debug)]
pub enum Finding {
    /// A label is used that the page doesn't define.
    NotDefined,
    /// A label is defined that no link of the page uses.
    NotUsed,
    /// A label has a definition before this one, which is passed over.
    DefinedBefore,
    /// A link leads to a file that is not there.
    NoFile,
    /// A link leads to a file that may not be looked for, or read.
    Denied,
    /// A link leads to an anchor of a page that can't be read.
    Unread,
    /// A link leads to an anchor that no heading of its page, or of another, makes.
    NoAnchor,
}

/// What is reported of a page.
#[derive(Debug, Drop)]
pub struct Report {
    /// How many bytes of the page stand before what is wrong.
    pub offset: usize,
    /// What is wrong.
    pub finding: Finding,
    /// The label that is wrong, or the destination.
    pub text: String,
}
