//! Where a field is oversized.

ghost use Rattle.waf_model.specs.Inspected.{is_over, most_bytes};
ghost use Rattle.waf_model.specs.Shown.{IsOversized, cookie_size, header_size, request_cookies};
ghost use Rattle.request_parts.specs.CookieTally.{tally as tally_of};
ghost use Rattle.std.specs.Prelude.{◌≡◌, ◌↔◌, IsTrue, false, nat_lt, sum_by};
ghost use Rattle.waf_model.specs.Pieces.{cookies_of};

use crate::names::header_value;
use waf_model::{Field, Header, Request};

/// At most so many headers or cookies are inspected.
pub(crate) const MOST_ENTRIES: usize = 200;

/// And at most so many bytes of them.
pub(crate) const MOST_BYTES: usize = 8192;

/// The bytes of a header: those of its name and of its value.
pub(crate) fn size_of(header: &Header) -> usize
    ensures { result ≡ header_size header.now }
{
    header.name.bytes().len() + header.value.bytes().len()
}

/// Whether the field is larger in the request than is inspected, where of a body at most `body_limit` bytes are (AWS WAF
/// Developer Guide, "Oversize web request components").
pub fn oversized(request: &Request, field: &Field, body_limit: u32) -> bool
    ensures { IsTrue result ↔ IsOversized field.now request.now body_limit }
{
    match field {
        Field::Body(_) => request.body.bytes().len() > body_limit as usize,
        Field::Headers(_, _, _) => are_headers_over(request.headers.as_slice()),
        Field::Cookies(_, _, _) => are_cookies_over(request),
        _ => false,
    }
}

// Whether there are more headers, or more bytes in them, than are inspected.
fn are_headers_over(headers: &[Header]) -> bool
    ensures { result ≡ is_over header_size headers.now }
{
    headers.len() > MOST_ENTRIES || have_many_bytes(headers)
}

// Whether there are more bytes in the headers than are inspected.
fn have_many_bytes(headers: &[Header]) -> bool
    ensures { result ≡ nat_lt most_bytes (sum_by header_size headers.now) }
{
    let mut bytes: usize = 0;
    for header in headers {
        let size = size_of(header);
        if size > MOST_BYTES - bytes {
            return true;
        }
        bytes += size;
    }
    false
}

// Whether there are more cookies, or more bytes in them, than are inspected.
fn are_cookies_over(request: &Request) -> bool
    ensures { result ≡ is_over cookie_size (request_cookies request.now) }
{
    match header_value(request, b"cookie") {
        Some(value) => is_value_over(value),
        None => false,
    }
}

// The same of the value of a `cookie` header, whose cookies are counted byte by byte.
#[tactic(auto, using(crate::proofs::Tallied::tallied))]
fn is_value_over(value: &[u8]) -> bool
    ensures { result ≡ is_over cookie_size (cookies_of value.now) }
{
    let (cookies, bytes) = tally(value);
    cookies > MOST_ENTRIES || bytes > MOST_BYTES
}

// How many cookies there are, and how many bytes in them.
fn tally(value: &[u8]) -> (usize, usize)
    ensures cookies { result.0 ≡ (tally_of false value.now).0 }
    ensures bytes { result.1 ≡ (tally_of false value.now).1 }
{
    let mut cookies: usize = 0;
    let mut bytes: usize = 0;
    let mut within = false;
    for byte in value {
        if *byte == b';' {
            within = false;
        } else if within {
            bytes += 1;
        } else if *byte != b' ' {
            within = true;
            cookies += 1;
            bytes += 1;
        }
    }
    (cookies, bytes)
}
