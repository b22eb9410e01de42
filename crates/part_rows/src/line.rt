//! A line of what was read: words with a space between two.

use std::alloc::Global;
use std::fmt::Debug;
use waf_model::{Items, Memory, Text};

/// A line that words are added to.
#[derive(Debug, Drop)]
pub(crate) struct Line {
    alloc: Global,
    text: Text,
    /// Whether the next word stands at the beginning of the line or of what is in brackets.
    is_fresh: bool,
}

impl Line {
    /// A line without words.
    pub(crate) fn new(alloc: Global) -> Line {
        Line {
            alloc,
            text: Text::new(alloc),
            is_fresh: true,
        }
    }

    /// Adds a word of any bytes.
    pub(crate) fn word(&mut self, word: &[u8]) -> Result<(), Memory> {
        if !self.is_fresh {
            self.text.push(b" ")?;
        }
        self.is_fresh = false;
        self.text.push(word)
    }

    /// Adds each text as a word.
    pub(crate) fn words(&mut self, words: &Items<Text>) -> Result<(), Memory> {
        for word in words.as_slice() {
            self.word(word.bytes())?;
        }
        Ok(())
    }

    /// Adds a number in decimal digits.
    pub(crate) fn number(&mut self, number: u64) -> Result<(), Memory> {
        let digits = number.to_string(self.alloc)?;
        self.word(digits.as_bytes())
    }

    /// Adds a value by the names that the code gives it.
    pub(crate) fn named<T: Debug>(&mut self, value: &T) -> Result<(), Memory> {
        let names = format!(in self.alloc; "{value:?}")?;
        self.word(names.as_bytes())
    }

    /// Adds a mark right behind the last word.
    pub(crate) fn mark(&mut self, mark: &[u8]) -> Result<(), Memory> {
        self.text.push(mark)
    }

    /// Adds a number in decimal digits right behind the last word.
    pub(crate) fn mark_number(&mut self, number: u64) -> Result<(), Memory> {
        self.text.push_number(self.alloc, number)
    }

    /// Opens a bracket, which a mark closes.
    pub(crate) fn open(&mut self) -> Result<(), Memory> {
        self.word(b"(")?;
        self.is_fresh = true;
        Ok(())
    }

    /// The text of the line.
    pub(crate) fn into_text(self) -> Text {
        let Line {
            alloc: _,
            text,
            is_fresh: _,
        } = self;
        text
    }
}
