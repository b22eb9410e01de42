//! The names that a file defines.

use std::alloc::Global;
use waf_base::{Memory, Text};

/// A name and the text that it stands for.
#[derive(Debug, Drop)]
struct Named {
    name: Text,
    text: Text,
}

/// The definitions so far, in their order. A name that was defined again stands for its last text.
#[derive(Debug, Drop)]
pub(crate) struct Names {
    alloc: Global,
    all: Vec<Named>,
}

/// Whether the byte may stand in a name behind its first.
fn goes_on(byte: u8) -> bool {
    byte.is_ascii_lowercase() || byte.is_ascii_digit() || byte == b'_'
}

/// Whether the bytes are a name: a lower-case letter, and then lower-case letters, digits and `_`.
pub(crate) fn is_name(bytes: &[u8]) -> bool {
    match bytes {
        [first, rest @ ..] => first.is_ascii_lowercase() && rest.iter().all(|byte| goes_on(*byte)),
        [] => false,
    }
}

impl Names {
    /// No name.
    pub(crate) fn new(alloc: Global) -> Names {
        Names {
            alloc,
            all: Vec::new(alloc),
        }
    }

    /// From here on the name stands for the text.
    pub(crate) fn define(&mut self, name: &[u8], text: Text) -> Result<(), Memory> {
        let name = Text::of(self.alloc, name)?;
        self.all.push(Named { name, text })?;
        Ok(())
    }

    /// The text that the name stands for, or nothing where it was not defined.
    pub(crate) fn text_of(&self, name: &[u8]) -> Option<&[u8]> {
        let named = self
            .all
            .iter()
            .rev()
            .find(|named| named.name.bytes() == name)?;
        Some(named.text.bytes())
    }
}
