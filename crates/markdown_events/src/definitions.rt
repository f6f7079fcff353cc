//! Where the labels of link reference definitions lead. (CommonMark 0.31.2, section 4.7)
ghost use Rattle.markdown_events.specs.Targets.{leads};

pub use crate::page::definitions::PageDefinitions;
use markdown_inlines::links::Labels;
use markdown_values::strings::CowStr;
use std::alloc::AllocError;
use std::marker::PhantomData;

/// Where a definition leads. Both texts are as they are written, with their backslash escapes and
/// character references.
#[derive(Debug, Drop)]
pub struct Target<'a> {
    /// The destination, without the angle brackets that it may have.
    pub destination: CowStr<'a>,
    /// The title, without the quotes or parentheses around it, if there is one.
    pub title: Option<CowStr<'a>>,
}

/// The link reference definitions that a text is read with. Their texts are lent for `'a`, or have
/// memory of their own.
pub trait Definitions<'a> {
    ghost use Rattle.std.specs.Prelude.{◌≡◌, ℕ, List, Option, IfOk};
    ghost use Rattle.std.specs.Option.{option_map};
    ghost use Rattle.markdown_blocks.specs.link_definitions.LinkDefinitions.{Target};
    ghost use Rattle.markdown_events.specs.Targets.{leads, seen_target};

    /// Where a label leads, which is a function of its text.
    ghost targets: { Self → List ℕ → Option Target };

    /// Where the label leads, if it is defined. Each run of white space in it is one space, and
    /// none stands at its ends; its letters are as they stand in the text, so that it is matched
    /// by `LinkLabel`, for which memory may be refused.
    fn find(&self, label: &str) -> Result<Option<Target<'a>>, AllocError>
        ensures { IfOk result (λ found.
            option_map seen_target found ≡ targets self.now label.now) };

    /// Whether the label, which is as `find` has it, is defined.
    fn is_defined(&self, label: &str) -> Result<bool, AllocError>
        ensures { IfOk result (λ is_defined. is_defined ≡ leads (targets self.now) label.now) };
}

/// No label leads anywhere but where the page defines it.
#[derive(Clone, Copy, Debug)]
pub struct NoBrokenLinks;

impl<'a> Definitions<'a> for NoBrokenLinks {
    ghost use Rattle.markdown_events.specs.Targets.{nowhere};

    ghost targets = { λ _. nowhere };

    fn find(&self, _label: &str) -> Result<Option<Target<'a>>, AllocError> {
        Ok(None)
    }

    fn is_defined(&self, _label: &str) -> Result<bool, AllocError> {
        Ok(false)
    }
}

/// The labels that are defined.
#[derive(Drop)]
pub(crate) struct Defined<'a, 'd, D> {
    pub(crate) definitions: &'d D,
    // What the definitions lend.
    pub(crate) lent: PhantomData<&'a str>,
}

impl<'a, 'd, D: Definitions<'a>> Labels for Defined<'a, 'd, D> {
    ghost known = { λ it. leads (D.targets it.definitions.now) };

    fn is_defined(&self, label: &str) -> Result<bool, AllocError> {
        self.definitions.is_defined(label)
    }
}
