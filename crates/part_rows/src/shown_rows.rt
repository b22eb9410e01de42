//! Rows of what is shown of a request: arguments, cookies, and the texts of a field to match.

use crate::given::{bytes, number, word};
use crate::row_fault::{RowFault, answered};
use json_view::parse;
use request_parts::{NamedPiece, arguments, cookies, oversized, parts, read_request};
use serde_json::Value;
use statement_json::{Encoding, TopStatement, top_statement};
use std::alloc::Global;
use text_rows::Kind;
use waf_model::{
    Address, Boxed, Field, Header, Items, Memory, ReadFault, Request, Statement, Text,
};

/// The kind of what is shown of a request. Given are `arguments` and a query, or `cookies` and the value of a header, which
/// come to the number of pieces and the name and value of each; or `parts`, a field to match, the limit of a body and a
/// request, which come to the number of texts and each of them; or `sizes`, a field, the limit, the headers and the body,
/// which come to the number of texts, the bytes of all, and whether the field is oversized. The headers are lines that a
/// newline byte ends, each a name, a colon and a value.
pub(crate) struct ShownRows;

fn push_count(alloc: Global, fields: &mut Vec<Text>, count: usize) -> Result<(), RowFault> {
    let digits = count.to_string(alloc)?;
    fields.push(Text::of(alloc, digits.as_bytes())?)?;
    Ok(())
}

// How many pieces there are, and the name and value of each.
fn piece_fields(alloc: Global, pieces: &[NamedPiece]) -> Result<Vec<Text>, RowFault> {
    let mut fields = Vec::new(alloc);
    push_count(alloc, &mut fields, pieces.len())?;
    for piece in pieces {
        fields.push(Text::of(alloc, piece.name.bytes())?)?;
        fields.push(Text::of(alloc, piece.value.bytes())?)?;
    }
    Ok(fields)
}

// How many texts there are, and each of them.
fn text_fields(alloc: Global, texts: &[Text]) -> Result<Vec<Text>, RowFault> {
    let mut fields = Vec::new(alloc);
    push_count(alloc, &mut fields, texts.len())?;
    for text in texts {
        fields.push(Text::of(alloc, text.bytes())?)?;
    }
    Ok(fields)
}

// The JSON text of a statement that looks at that field (API type `FieldToMatch`).
fn statement_text(alloc: Global, field: &[u8]) -> Result<Text, Memory> {
    let mut text = Text::of(alloc, b"{\"SizeConstraintStatement\":{\"FieldToMatch\":")?;
    text.push(field)?;
    text.push(b",\"ComparisonOperator\":\"EQ\",\"Size\":0,\"TextTransformations\":[]}}")?;
    Ok(text)
}

// The value of a JSON text.
fn value_of(alloc: Global, text: &Text) -> Result<Value, RowFault> {
    parse(alloc, text.bytes())?.ok_or(RowFault::Given)
}

// The statement of that value.
fn statement_of(alloc: Global, value: &Value) -> Result<TopStatement, ReadFault> {
    let name = Text::new(alloc);
    let mut seen = 0;
    top_statement(alloc, &[], Encoding::Plain, &name, value, &name, &mut seen)
}

// A statement that looks at the field of that JSON text. (In a box its drop is one step for those that own it.)
fn statement_on(alloc: Global, field: &[u8]) -> Result<Boxed<TopStatement>, RowFault> {
    let text = statement_text(alloc, field)?;
    let value = value_of(alloc, &text)?;
    let top = statement_of(alloc, &value)?;
    Ok(Boxed::new(alloc, top)?)
}

// The field that a statement looks at, where it is one of those that are evaluated.
fn field_of(top: &TopStatement) -> Option<&Field> {
    let TopStatement::Plain(statement) = top else {
        return None;
    };
    match statement {
        Statement::Size { field, .. } => Some(field),
        _ => None,
    }
}

// A header of a line: what stands before its first colon, and what stands behind it.
fn header_of(alloc: Global, line: &[u8]) -> Result<Header, RowFault> {
    let mut halves = line.splitn(2, |byte| *byte == b':');
    let (Some(name), Some(value)) = (halves.next(), halves.next()) else {
        return Err(RowFault::Given);
    };
    Ok(Header {
        name: Text::of(alloc, name)?,
        value: Text::of(alloc, value)?,
    })
}

// The headers of lines, each ended by a newline byte.
fn headers_of(alloc: Global, lines: &[u8]) -> Result<Items<Header>, RowFault> {
    let mut headers = Items::new(alloc);
    for line in lines.split(|byte| *byte == b'\n') {
        if !line.is_empty() {
            headers.push(header_of(alloc, line)?)?;
        }
    }
    Ok(headers)
}

// The request with those headers and that body.
fn request_with(alloc: Global, headers: &[u8], body: &[u8]) -> Result<Request, RowFault> {
    let method = Text::of(alloc, b"GET")?;
    let path = Text::of(alloc, b"/")?;
    let body = Text::of(alloc, body)?;
    Ok(Request {
        method,
        path,
        query: Text::new(alloc),
        headers: headers_of(alloc, headers)?,
        body,
        address: Address::V4(1),
    })
}

// How many bytes the texts have in all.
fn bytes_in(texts: &[Text]) -> usize {
    let mut bytes: usize = 0;
    for text in texts {
        bytes = bytes.saturating_add(text.bytes().len());
    }
    bytes
}

// How many texts the field shows, how many bytes they have in all, and whether it is oversized.
fn sizes_of(
    alloc: Global,
    request: &Request,
    field: &Field,
    limit: u32,
) -> Result<Vec<Text>, RowFault> {
    let shown = parts(alloc, request, field, limit)?;
    let mut fields = Vec::new(alloc);
    push_count(alloc, &mut fields, shown.len())?;
    push_count(alloc, &mut fields, bytes_in(shown.as_slice()))?;
    let is_oversized = oversized(request, field, limit);
    let word: &[u8] = if is_oversized { b"oversized" } else { b"whole" };
    fields.push(Text::of(alloc, word)?)?;
    Ok(fields)
}

// The sizes that the field has in the request that is given.
fn sizes_at(alloc: Global, given: &[Text], field: &Field) -> Result<Vec<Text>, RowFault> {
    let limit = number(given, 2)?;
    let (headers, body) = (bytes(given, 3)?, bytes(given, 4)?);
    let request = request_with(alloc, headers, body)?;
    sizes_of(alloc, &request, field, limit)
}

// The sizes of the field and the request that are given.
fn sizes(alloc: Global, given: &[Text]) -> Result<Vec<Text>, RowFault> {
    let top = statement_on(alloc, bytes(given, 1)?)?;
    match field_of(top.get()) {
        Some(field) => sizes_at(alloc, given, field),
        None => Err(RowFault::Given),
    }
}

// The texts that the field shows of a request.
fn parts_of(
    alloc: Global,
    request: &Request,
    field: &Field,
    limit: u32,
) -> Result<Vec<Text>, RowFault> {
    let shown = parts(alloc, request, field, limit)?;
    text_fields(alloc, shown.as_slice())
}

// The texts that the field shows of the request that is given.
fn parts_at(alloc: Global, given: &[Text], field: &Field) -> Result<Vec<Text>, RowFault> {
    let limit = number(given, 2)?;
    let request = read_request(alloc, bytes(given, 3)?)?;
    parts_of(alloc, &request, field, limit)
}

// The texts that are shown of the field and the request that are given.
fn shown_parts(alloc: Global, given: &[Text]) -> Result<Vec<Text>, RowFault> {
    let top = statement_on(alloc, bytes(given, 1)?)?;
    match field_of(top.get()) {
        Some(field) => parts_at(alloc, given, field),
        None => Err(RowFault::Given),
    }
}

// The arguments of a query.
fn shown_arguments(alloc: Global, query: &[u8]) -> Result<Vec<Text>, RowFault> {
    let pieces = arguments(alloc, query)?;
    piece_fields(alloc, pieces.as_slice())
}

// The cookies of a header's value.
fn shown_cookies(alloc: Global, value: &[u8]) -> Result<Vec<Text>, RowFault> {
    let pieces = cookies(alloc, value)?;
    piece_fields(alloc, pieces.as_slice())
}

// What the call gives.
fn fields(alloc: Global, given: &[Text]) -> Result<Vec<Text>, RowFault> {
    match word(given, 0)? {
        "arguments" => shown_arguments(alloc, bytes(given, 1)?),
        "cookies" => shown_cookies(alloc, bytes(given, 1)?),
        "parts" => shown_parts(alloc, given),
        "sizes" => sizes(alloc, given),
        _ => Err(RowFault::Given),
    }
}

impl Kind for ShownRows {
    fn answer(&self, alloc: Global, given: &[Text]) -> Result<Vec<Text>, Memory> {
        answered(alloc, fields(alloc, given))
    }
}
