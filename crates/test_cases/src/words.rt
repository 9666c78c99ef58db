//! The words of a line, one after the other.

use crate::fault::Fault;

/// What comes before ` : `, and what has to come of it: `ok` where nothing is said.
pub(crate) fn halves(line: &str) -> (&str, &str) {
    line.split_once(" : ").unwrap_or((line, "ok"))
}

/// Words with one space between two.
#[derive(Clone, Copy, Drop)]
pub(crate) struct Words<'a> {
    rest: &'a str,
}

impl<'a> Words<'a> {
    /// The words of a text.
    pub(crate) fn new(text: &'a str) -> Words<'a> {
        Words { rest: text }
    }

    /// Whether there are no more words.
    pub(crate) fn is_empty(&self) -> bool {
        self.rest.is_empty()
    }

    /// All that is left, as one text.
    pub(crate) fn all(&self) -> &'a str {
        self.rest
    }

    /// The next word.
    pub(crate) fn word(&mut self) -> Result<&'a str, Fault> {
        if self.rest.is_empty() {
            return Err(Fault::NotUnderstood);
        }
        let (word, rest) = self.rest.split_once(' ').unwrap_or((self.rest, ""));
        self.rest = rest;
        Ok(word)
    }

    /// The next word is this one.
    pub(crate) fn expect(&mut self, wanted: &str) -> Result<(), Fault> {
        if self.word()? == wanted {
            Ok(())
        } else {
            Err(Fault::NotUnderstood)
        }
    }

    /// There are no more words.
    pub(crate) fn end(&self) -> Result<(), Fault> {
        if self.rest.is_empty() {
            Ok(())
        } else {
            Err(Fault::NotUnderstood)
        }
    }

    /// A number in decimal digits.
    pub(crate) fn number(&mut self) -> Result<u32, Fault> {
        match self.word()?.parse::<u32>() {
            Ok(number) => Ok(number),
            Err(_) => Err(Fault::NotUnderstood),
        }
    }

    /// A number in decimal digits, below 65,536.
    pub(crate) fn short(&mut self) -> Result<u16, Fault> {
        match self.word()?.parse::<u16>() {
            Ok(number) => Ok(number),
            Err(_) => Err(Fault::NotUnderstood),
        }
    }

    /// A number in decimal digits, below 256.
    pub(crate) fn small(&mut self) -> Result<u8, Fault> {
        match self.word()?.parse::<u8>() {
            Ok(number) => Ok(number),
            Err(_) => Err(Fault::NotUnderstood),
        }
    }

    /// An address, in hexadecimal digits.
    pub(crate) fn address(&mut self) -> Result<u32, Fault> {
        match u32::from_str_radix(self.word()?, 16) {
            Ok(number) => Ok(number),
            Err(_) => Err(Fault::NotUnderstood),
        }
    }

    /// A byte, in hexadecimal digits.
    pub(crate) fn byte(&mut self) -> Result<u8, Fault> {
        match u8::from_str_radix(self.word()?, 16) {
            Ok(number) => Ok(number),
            Err(_) => Err(Fault::NotUnderstood),
        }
    }
}
