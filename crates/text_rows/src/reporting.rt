//! What is said of a file of rows.

use crate::reader::read_rows;
use crate::row::{Row, RowsFault};
use crate::shown::show_all;
use std::alloc::Global;
use waf_base::{Memory, Text};

/// A kind of rows: the calls that its rows are run through.
pub trait Kind {
    /// What the calls come to on what is given, as fields. Given fields that are no row of this kind come to `unknown`.
    fn answer(&self, alloc: Global, given: &[Text]) -> Result<Vec<Text>, Memory>;
}

/// What given fields come to that are no row of a kind: one field that says so.
pub fn unknown(alloc: Global) -> Result<Vec<Text>, Memory> {
    let mut fields = Vec::new(alloc);
    fields.push(Text::of(alloc, b"no row of this kind")?)?;
    Ok(fields)
}

/// Whether the two lists have the same bytes, field by field.
fn are_same(wanted: &[Text], got: &[Text]) -> bool {
    wanted.len() == got.len()
        && wanted
            .iter()
            .zip(got)
            .all(|(left, right)| left.bytes() == right.bytes())
}

/// Adds the name of a line of the file.
fn push_place(alloc: Global, text: &mut Text, file: &str, line: u64) -> Result<(), Memory> {
    text.push(file.as_bytes())?;
    text.push(b":")?;
    text.push_number(alloc, line)
}

/// Adds a line for a row that came to something else, and nothing for one that came to what is wanted.
fn push_row<K: Kind>(
    alloc: Global,
    text: &mut Text,
    file: &str,
    row: &Row,
    kind: &K,
) -> Result<(), Memory> {
    let got = kind.answer(alloc, row.given.as_slice())?;
    if are_same(row.wanted.as_slice(), got.as_slice()) {
        return Ok(());
    }
    push_place(alloc, text, file, row.line)?;
    text.push(b" wanted ")?;
    show_all(text, row.wanted.as_slice())?;
    text.push(b" got ")?;
    show_all(text, got.as_slice())?;
    text.push(b"\n")
}

/// Adds the lines for the rows of a file, and their number.
fn push_rows<K: Kind>(
    alloc: Global,
    text: &mut Text,
    file: &str,
    rows: &[Row],
    kind: &K,
) -> Result<(), Memory> {
    for row in rows {
        push_row(alloc, text, file, row, kind)?;
    }
    text.push(file.as_bytes())?;
    text.push(b" rows ")?;
    text.push_number(alloc, rows.len() as u64)?;
    text.push(b"\n")
}

/// The lines for a file of that name and these bytes: `FILE:LINE wanted W got G` for each row that came to something
/// else, and then `FILE rows N`; or `FILE:LINE no row` alone where the bytes don't follow the format.
pub fn report<K: Kind>(alloc: Global, file: &str, bytes: &[u8], kind: &K) -> Result<Text, Memory> {
    let mut text = Text::new(alloc);
    match read_rows(alloc, bytes) {
        Ok(rows) => push_rows(alloc, &mut text, file, rows.as_slice(), kind)?,
        Err(RowsFault::Memory) => return Err(Memory),
        Err(RowsFault::NoRow(line)) => {
            push_place(alloc, &mut text, file, line)?;
            text.push(b" no row\n")?;
        }
    }
    Ok(text)
}
