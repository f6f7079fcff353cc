//! The arguments of a case.
use crate::skips::Skips;
use crate::stop::{CaseError, Unreadable};
use hex::FromHexError;
use std::alloc::Global;

/// The arguments of a case that haven't been read yet, with tabs between them.
#[derive(Drop)]
pub(crate) struct Arguments<'a> {
    rest: Option<&'a str>,
}

impl<'a> Arguments<'a> {
    pub(crate) fn new(rest: Option<&'a str>) -> Self {
        Arguments { rest }
    }

    /// The next argument as it is written.
    pub(crate) fn word(&mut self) -> Result<&'a str, Unreadable> {
        let rest = self.rest.ok_or(Unreadable::MissingArgument)?;
        match rest.split_once('\t') {
            Some((word, others)) => {
                self.rest = Some(others);
                Ok(word)
            }
            None => {
                self.rest = None;
                Ok(rest)
            }
        }
    }

    /// Bytes, two hexadecimal digits each, or a hyphen for none.
    pub(crate) fn bytes(&mut self, alloc: Global) -> Result<Vec<u8>, CaseError> {
        let digits = self.word()?;
        if digits == "-" {
            return Ok(Vec::new(alloc));
        }
        match hex::decode(alloc, digits) {
            Ok(bytes) => Ok(bytes),
            Err(FromHexError::OutOfMemory) => Err(CaseError::Memory),
            Err(_) => Err(CaseError::Unreadable(Unreadable::NotHexadecimal)),
        }
    }

    /// The bytes of a text, as `bytes` reads them.
    pub(crate) fn text(&mut self, alloc: Global) -> Result<String, CaseError> {
        let bytes = self.bytes(alloc)?;
        String::from_utf8(bytes).map_err(|_| CaseError::Unreadable(Unreadable::NotText))
    }

    /// A number in decimal digits.
    pub(crate) fn number(&mut self) -> Result<usize, Unreadable> {
        parse_number(self.word()?)
    }

    /// A byte, by its number in decimal digits.
    pub(crate) fn byte(&mut self) -> Result<u8, Unreadable> {
        self.word()?.parse::<u8>().map_err(|_| Unreadable::NotByte)
    }

    /// 1 for true and 0 for false.
    pub(crate) fn flag(&mut self) -> Result<bool, Unreadable> {
        match self.word()?.as_bytes() {
            b"1" => Ok(true),
            b"0" => Ok(false),
            _ => Err(Unreadable::NotFlag),
        }
    }

    /// What a handler skips, by its name.
    pub(crate) fn skips(&mut self) -> Result<Skips, Unreadable> {
        Skips::named(self.word()?).ok_or(Unreadable::UnknownHandler)
    }

    /// Nothing is left to read.
    pub(crate) fn end(&self) -> Result<(), Unreadable> {
        match self.rest {
            Some(_) => Err(Unreadable::SpareArgument),
            None => Ok(()),
        }
    }
}

/// A number in decimal digits.
pub(crate) fn parse_number(digits: &str) -> Result<usize, Unreadable> {
    digits.parse::<usize>().map_err(|_| Unreadable::NotNumber)
}
