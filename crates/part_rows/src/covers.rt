//! Rows of covers: ranges with a space between two of them, and what is asked. `IPV4` and `IPV6` ask for the intervals
//! of that version, an address asks whether it is covered.

use crate::answers::word;
use crate::number_texts::{address_of, push_v4, push_v6, range_of};
use ip_cover::{IpCover, Span4, Span6};
use std::alloc::Global;
use text_rows::{Kind, unknown};
use waf_model::{Cidr, Memory, Text};

/// Covers, each with what is asked of it.
pub(crate) struct Covers;

/// The ranges of a field, or nothing where one of them is none.
fn ranges_of(alloc: Global, field: &[u8]) -> Result<Option<Vec<Cidr>>, Memory> {
    let mut ranges = Vec::new(alloc);
    if field.is_empty() {
        return Ok(Some(ranges));
    }
    for part in field.split(|byte| *byte == b' ') {
        let Some(range) = range_of(part) else {
            return Ok(None);
        };
        ranges.push(range)?;
    }
    Ok(Some(ranges))
}

/// The intervals as `FIRST-LAST`, with a space between two of them.
fn v4_text(alloc: Global, spans: &[Span4]) -> Result<Text, Memory> {
    let mut text = Text::new(alloc);
    for (place, span) in spans.iter().enumerate() {
        if place > 0 {
            text.push(b" ")?;
        }
        push_v4(alloc, &mut text, span.first)?;
        text.push(b"-")?;
        push_v4(alloc, &mut text, span.last)?;
    }
    Ok(text)
}

/// The intervals as `FIRST-LAST`, with a space between two of them.
fn v6_text(alloc: Global, spans: &[Span6]) -> Result<Text, Memory> {
    let mut text = Text::new(alloc);
    for (place, span) in spans.iter().enumerate() {
        if place > 0 {
            text.push(b" ")?;
        }
        push_v6(alloc, &mut text, span.first)?;
        text.push(b"-")?;
        push_v6(alloc, &mut text, span.last)?;
    }
    Ok(text)
}

/// What the cover answers to what is asked.
fn answer_to(alloc: Global, cover: &IpCover, asked: &[u8]) -> Result<Text, Memory> {
    if asked == b"IPV4".as_slice() {
        return v4_text(alloc, cover.v4());
    }
    if asked == b"IPV6".as_slice() {
        return v6_text(alloc, cover.v6());
    }
    match address_of(asked) {
        Some(address) => Text::of(alloc, word(cover.holds(&address))),
        None => Text::of(alloc, b"no question"),
    }
}

impl Kind for Covers {
    fn answer(&self, alloc: Global, given: &[Text]) -> Result<Vec<Text>, Memory> {
        let Some((ranges, all_asked)) = given.split_first() else {
            return unknown(alloc);
        };
        let Some(ranges) = ranges_of(alloc, ranges.bytes())? else {
            return unknown(alloc);
        };
        let cover = IpCover::of(alloc, ranges.as_slice())?;
        let mut fields = Vec::new(alloc);
        for asked in all_asked {
            fields.push(answer_to(alloc, &cover, asked.bytes())?)?;
        }
        Ok(fields)
    }
}
