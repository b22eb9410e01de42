//! Rows of requests.

use crate::fault_line::fault_line;
use crate::given::{bytes, word};
use crate::row_fault::{RowFault, alone, answered};
use request_parts::{read_request, write_request};
use std::alloc::Global;
use text_rows::Kind;
use waf_model::{Header, Memory, Request, Text};

/// The kind of requests. Given are a call and a request's bytes. `read` comes to the text of the request that was read, or
/// to its fault; `read_back` to whether that text is read as the same request.
pub(crate) struct RequestRows;

// Whether the headers have the same names and values, in order.
fn are_same_headers(some: &[Header], others: &[Header]) -> bool {
    some.len() == others.len()
        && some.iter().zip(others.iter()).all(|(header, other)| {
            header.name.bytes() == other.name.bytes() && header.value.bytes() == other.value.bytes()
        })
}

// Whether the requests are the same in each part.
fn is_same(request: &Request, other: &Request) -> bool {
    request.method.bytes() == other.method.bytes()
        && request.path.bytes() == other.path.bytes()
        && request.query.bytes() == other.query.bytes()
        && request.body.bytes() == other.body.bytes()
        && request.address == other.address
        && are_same_headers(request.headers.as_slice(), other.headers.as_slice())
}

// Whether the text of the request is read as the same request.
fn read_back(alloc: Global, request: &Request) -> Result<Text, RowFault> {
    let text = write_request(alloc, request)?;
    match read_request(alloc, text.bytes()) {
        Ok(read) if is_same(request, &read) => Ok(Text::of(alloc, b"same")?),
        Ok(_) => Ok(Text::of(alloc, b"another")?),
        Err(fault) => Ok(fault_line(alloc, &fault)?),
    }
}

// What the call gives.
fn called(alloc: Global, given: &[Text]) -> Result<Text, RowFault> {
    let call = word(given, 0)?;
    let request = match read_request(alloc, bytes(given, 1)?) {
        Ok(request) => request,
        Err(fault) => return Ok(fault_line(alloc, &fault)?),
    };
    match call {
        "read" => Ok(write_request(alloc, &request)?),
        "read_back" => read_back(alloc, &request),
        _ => Err(RowFault::Given),
    }
}

fn fields(alloc: Global, given: &[Text]) -> Result<Vec<Text>, RowFault> {
    alone(alloc, called(alloc, given)?)
}

impl Kind for RequestRows {
    fn answer(&self, alloc: Global, given: &[Text]) -> Result<Vec<Text>, Memory> {
        answered(alloc, fields(alloc, given))
    }
}
