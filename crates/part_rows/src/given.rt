//! What is given to a row, field by field.

use crate::row_fault::RowFault;
use json_view::parse;
use serde_json::Value;
use statement_json::Encoding;
use std::alloc::Global;
use waf_model::Text;

/// The greatest number of statements of a bundle.
pub(crate) const MOST_STATEMENTS: u32 = 20_000;

/// The bytes of the field at that place, counted from 0.
pub(crate) fn bytes(given: &[Text], place: usize) -> Result<&[u8], RowFault> {
    match given.get(place) {
        Some(field) => Ok(field.bytes()),
        None => Err(RowFault::Given),
    }
}

/// The field at that place, which is UTF-8.
pub(crate) fn word(given: &[Text], place: usize) -> Result<&str, RowFault> {
    let field = bytes(given, place)?;
    std::str::from_utf8(field).map_err(|_| RowFault::Given)
}

/// The number in decimal digits at that place.
pub(crate) fn number(given: &[Text], place: usize) -> Result<u32, RowFault> {
    let digits = word(given, place)?;
    digits.parse::<u32>().map_err(|_| RowFault::Given)
}

/// How search strings stand, by the word at that place.
pub(crate) fn encoding(given: &[Text], place: usize) -> Result<Encoding, RowFault> {
    match word(given, place)? {
        "BASE64" => Ok(Encoding::Base64),
        "TEXT" => Ok(Encoding::Plain),
        _ => Err(RowFault::Given),
    }
}

/// The value of the JSON text at that place.
pub(crate) fn json(alloc: Global, given: &[Text], place: usize) -> Result<Value, RowFault> {
    let text = bytes(given, place)?;
    let value = parse(alloc, text)?;
    value.ok_or(RowFault::Given)
}
