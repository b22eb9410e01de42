//! Answers as lists of fields.

use std::alloc::Global;
use waf_base::{Memory, Text};

/// One field.
pub(crate) fn one(alloc: Global, bytes: &[u8]) -> Result<Vec<Text>, Memory> {
    let mut fields = Vec::new(alloc);
    fields.push(Text::of(alloc, bytes)?)?;
    Ok(fields)
}

/// The word for what holds, or for what doesn't.
pub(crate) fn word(holds: bool) -> &'static [u8] {
    if holds { b"yes" } else { b"no" }
}

/// How many texts there are, and then the texts.
pub(crate) fn counted(alloc: Global, texts: &[Text]) -> Result<Vec<Text>, Memory> {
    let mut count = Text::new(alloc);
    count.push_number(alloc, texts.len() as u64)?;
    let mut fields = Vec::new(alloc);
    fields.push(count)?;
    for text in texts {
        fields.push(Text::of(alloc, text.bytes())?)?;
    }
    Ok(fields)
}
