//! Texts: cases of `CowStr`.
use crate::printing::{Copied, MadeOf, print_consuming, print_copy};
use crate::stop::Stop;
use markdown_values::strings::{CowStr, InlineStr};
use std::alloc::{AllocError, Global};
use std::fmt;
use std::io::Stdout;

#[derive(Clone, Copy)]
pub(crate) enum TextCase {
    FromString,
    Clone,
    IntoString,
    IntoStatic,
}

/// A text that is too long to be inlined.
pub(crate) const OF_30: &str = "0123456789abcdefghijklmnopqrst";

/// A text, printed with its variant.
#[derive(Drop)]
pub(crate) struct Text<'a>(pub(crate) CowStr<'a>);

impl fmt::Debug for Text<'_> {
    fn fmt<W: fmt::Write>(&self, f: &mut fmt::Formatter<W>) -> fmt::Result {
        let variant = match &self.0 {
            CowStr::Boxed(_) => "boxed",
            CowStr::Borrowed(_) => "borrowed",
            CowStr::Inlined(_) => "inlined",
        };
        write!(f, "{variant} {:?}", self.0.as_str())
    }
}

/// An owned text of these bytes.
pub(crate) fn boxed(alloc: Global, text: &str) -> Result<CowStr<'static>, AllocError> {
    CowStr::from_string(alloc, String::from_str(alloc, text)?)
}

/// An owned text.
pub(crate) fn owned(alloc: Global) -> Result<CowStr<'static>, AllocError> {
    boxed(alloc, OF_30)
}

/// The same text, borrowed.
pub(crate) fn lent() -> CowStr<'static> {
    CowStr::from(OF_30)
}

/// How a value holds its texts.
#[derive(Clone, Copy)]
pub(crate) enum Holding {
    Owned,
    Lent,
}

/// A text that is held in one of these ways.
pub(crate) trait Held {
    fn held(alloc: Global, holding: Holding) -> Result<Self, AllocError>;
}

impl Held for CowStr<'static> {
    fn held(alloc: Global, holding: Holding) -> Result<CowStr<'static>, AllocError> {
        match holding {
            Holding::Owned => owned(alloc),
            Holding::Lent => Ok(lent()),
        }
    }
}

fn inlined() -> CowStr<'static> {
    CowStr::Inlined(InlineStr::from('藏'))
}

fn string(alloc: Global) -> Result<String, AllocError> {
    String::from_str(alloc, OF_30)
}

impl Copied for CowStr<'static> {
    fn copied(&self, alloc: Global) -> Result<CowStr<'static>, AllocError> {
        self.clone(alloc)
    }
}

impl MadeOf<String> for CowStr<'static> {
    fn made_of(alloc: Global, value: String) -> Result<CowStr<'static>, AllocError> {
        CowStr::from_string(alloc, value)
    }
}

impl MadeOf<CowStr<'static>> for String {
    fn made_of(alloc: Global, value: CowStr<'static>) -> Result<String, AllocError> {
        value.into_string(alloc)
    }
}

impl MadeOf<CowStr<'static>> for Text<'static> {
    fn made_of(alloc: Global, value: CowStr<'static>) -> Result<Text<'static>, AllocError> {
        Ok(Text(value.into_static(alloc)?))
    }
}

pub(crate) fn run(alloc: Global, output: Stdout, case: TextCase) -> Result<(), Stop> {
    match case {
        TextCase::FromString => from_string(alloc, output),
        TextCase::Clone => print_copy(alloc, output, owned(alloc)),
        TextCase::IntoString => into_string(alloc, output),
        TextCase::IntoStatic => into_static(alloc, output),
    }
}

// An owned text keeps the memory of its `String`.
fn from_string(alloc: Global, output: Stdout) -> Result<(), Stop> {
    let (first, second) = (string(alloc), string(alloc));
    print_consuming::<String, CowStr<'static>>(alloc, output, OF_30, first, second)
}

// A borrowed text and an inlined one become a `String`.
fn into_string(alloc: Global, output: Stdout) -> Result<(), Stop> {
    print_string(alloc, output, OF_30, Ok(lent()), Ok(lent()))?;
    print_string(alloc, output, "藏", Ok(inlined()), Ok(inlined()))
}

fn print_string(
    alloc: Global,
    output: Stdout,
    state: &str,
    first: Result<CowStr<'static>, AllocError>,
    second: Result<CowStr<'static>, AllocError>,
) -> Result<(), Stop> {
    print_consuming::<CowStr<'static>, String>(alloc, output, state, first, second)
}

// A long borrowed text is owned.
fn into_static(alloc: Global, output: Stdout) -> Result<(), Stop> {
    print_consuming::<CowStr<'static>, Text<'static>>(alloc, output, OF_30, Ok(lent()), Ok(lent()))
}
