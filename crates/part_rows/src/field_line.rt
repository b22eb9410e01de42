//! A field to match with its transformations, and the header of a forwarded address, as words of a line.

use crate::line::Line;
use waf_model::{Field, Filter, Forwarded, Items, Memory, Oversize, Part, Text, Transform};

fn push_filter(line: &mut Line, filter: &Filter) -> Result<(), Memory> {
    match filter {
        Filter::All => line.word(b"all"),
        Filter::Included(names) => {
            line.word(b"included")?;
            line.words(names)
        }
        Filter::Excluded(names) => {
            line.word(b"excluded")?;
            line.words(names)
        }
    }
}

// What is looked at of headers or cookies.
fn push_pairs(
    line: &mut Line,
    filter: &Filter,
    part: Part,
    oversize: Oversize,
) -> Result<(), Memory> {
    push_filter(line, filter)?;
    line.named(&part)?;
    line.named(&oversize)
}

fn push_named(line: &mut Line, what: &[u8], name: &Text) -> Result<(), Memory> {
    line.word(what)?;
    line.word(name.bytes())
}

fn push_field(line: &mut Line, field: &Field) -> Result<(), Memory> {
    match field {
        Field::Header(name) => push_named(line, b"Header", name),
        Field::Argument(name) => push_named(line, b"Argument", name),
        Field::Headers(filter, part, oversize) => {
            line.word(b"Headers")?;
            push_pairs(line, filter, *part, *oversize)
        }
        Field::Cookies(filter, part, oversize) => {
            line.word(b"Cookies")?;
            push_pairs(line, filter, *part, *oversize)
        }
        field => line.named(field),
    }
}

/// Adds the field and the transformations in the order of application.
pub(crate) fn push_target(
    line: &mut Line,
    field: &Field,
    transforms: &Items<Transform>,
) -> Result<(), Memory> {
    push_field(line, field)?;
    for transform in transforms.as_slice() {
        line.named(transform)?;
    }
    Ok(())
}

/// Adds the header, whether the statement holds where it tells no address, and which addresses count.
pub(crate) fn push_forwarded(line: &mut Line, forwarded: &Option<Forwarded>) -> Result<(), Memory> {
    if let Some(forwarded) = forwarded {
        line.word(forwarded.header.bytes())?;
        line.named(&forwarded.fallback)?;
        line.named(&forwarded.position)?;
    }
    Ok(())
}
