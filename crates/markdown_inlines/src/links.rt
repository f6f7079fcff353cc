//! Links and images. (CommonMark 0.31.2, sections 6.3 and 6.4)
ghost use Rattle.std.specs.Prelude.{◌≡◌, ◌++◌, ◌∷◌, ◌<◌, ◌==◌, [], None, Some, get_or, length, slice_get, slice_set, IfNone, IfSome, OnOk};

use std::alloc::{AllocError, Global};
use std::marker::Model;
use std::ops::Range;

/// Which link reference definitions a page has.
pub trait Labels {
    ghost use Rattle.std.specs.Prelude.{◌≡◌, ℕ, Bool, List, IfOk};

    /// Whether a label is defined, which is a function of its text.
    ghost known: { Self → List ℕ → Bool };

    /// Whether the label is defined. Each run of white space in it is one space, and none stands at its ends; its letters
    /// are as they stand in the text, so that it is matched by `LinkLabel`, for which memory may be refused.
    fn is_defined(&self, label: &str) -> Result<bool, AllocError>
        ensures { IfOk result (λ is_defined. is_defined ≡ known self.now label.now) };
}

/// A link or an image.
#[derive(Debug, Drop, PartialEq)]
pub struct Link {
    /// Whether it is an image.
    pub is_image: bool,
    /// Where it stands in the text.
    pub source: Range<usize>,
    /// Where its link text or image description stands, between its brackets.
    pub text: Range<usize>,
    /// Where it leads.
    pub target: LinkTarget,
}

/// Where a link leads, by what follows its link text.
#[derive(Debug, Drop, PartialEq)]
pub enum LinkTarget {
    /// Parentheses follow: where the raw text of its destination stands, and that of its title.
    Inline(Range<usize>, Option<Range<usize>>),
    /// A label follows that is defined: where it stands, with its brackets.
    Full(Range<usize>),
    /// `[]` follows, and the link text is a label that is defined.
    Collapsed,
    /// Neither follows, and the link text is a label that is defined.
    Shortcut,
    /// It is a wikilink: where its target stands, between its left brackets and the pipe or the right
    /// brackets. A link text that is empty is shown as the target.
    Wiki(Range<usize>),
}

/// The links of a text: of each bracket that may begin a link or an image, in order, the one that it
/// begins, if it begins one.
#[derive(Debug, Drop)]
pub struct Links {
    // Of each bracket 0, or one more than the index of its link.
    numbers: Vec<usize>,
    links: Vec<Link>,
}

impl Model for Links {
    ghost use Rattle.std.specs.Prelude.{◌≤◌, List, Option, length, map};
    ghost use Rattle.std.specs.List.{All};
    ghost use Rattle.markdown_inlines.specs.LinkLists.{link_of};
    ghost use Rattle.markdown_inlines.specs.declared.links.Link.{Link};

    ghost Value = { List (Option Link) };

    ghost view = { λ l. map (link_of l.links.items) l.numbers.items };

    ghost invariant = { λ l. All (λ number. number ≤ length l.links.items) l.numbers.items };
}

impl Links {
    // There is no bracket. No memory is asked for.
    pub(crate) fn new(alloc: Global) -> Links
        ensures { result ≡ [] }
    {
        Links {
            numbers: Vec::new(alloc),
            links: Vec::new(alloc),
        }
    }

    // Takes all brackets away.
    pub(crate) fn clear(&mut self)
        ensures { self.new ≡ [] }
    {
        self.numbers.clear();
        self.links.clear();
    }

    // Adds a bracket that begins no link.
    pub(crate) fn push_none(&mut self) -> Result<(), AllocError>
        ensures { OnOk result (self.new ≡ self.old ++ None ∷ []) }
    {
        self.numbers.push(0)?;
        Ok(())
    }

    // Lets the bracket with this number begin a link.
    pub(crate) fn put(&mut self, number: usize, link: Link) -> Result<(), AllocError>
        requires { number < length self.old }
        ensures { OnOk result (self.new ≡ slice_set self.old number (Some link)) }
    {
        self.links.push(link)?;
        self.numbers[number] = self.links.len();
        Ok(())
    }

    /// How many brackets may begin a link or an image.
    pub fn len(&self) -> usize
        ensures { result ≡ length self.now }
    {
        self.numbers.len()
    }

    /// Whether there is none.
    pub fn is_empty(&self) -> bool
        ensures { result ≡ (length self.now == 0) }
    {
        self.numbers.is_empty()
    }

    /// The link or image that the bracket with this number begins, if it begins one.
    pub fn get(&self, number: usize) -> Option<&Link>
        ensures some { IfSome result (λ link.
            slice_get self.now number ≡ Some (Some link.now)) }
        ensures none { IfNone result (get_or self.now number None ≡ None) }
    {
        let index = self.numbers.get(number)?.checked_sub(1)?;
        self.links.get(index)
    }
}
