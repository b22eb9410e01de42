//! What a field shows of a request.

ghost use Rattle.waf_model.specs.Inspected.{inspected as inspected_of};
ghost use Rattle.waf_model.specs.NamedPieces.{arguments_of, value_of as value_in};
ghost use Rattle.request_parts.specs.PieceViews.{texts};
ghost use Rattle.waf_model.specs.Shown.{cookie_size, header_size, looked_at, of_cookie, of_header, request_cookies, shown, values_named};
ghost use Rattle.std.specs.List.{flat_map};
ghost use Rattle.std.specs.Option.{option_to_list};
ghost use Rattle.std.specs.Prelude.{◌≡◌, ◌++◌, ◌∷◌, [], IfOk, OnOk, map, option_map, take};
ghost use Rattle.waf_model.specs.Within.{value_of_header};

use crate::inspected::{inspected_cookies, inspected_headers};
use crate::named_piece::{name_of, value_of};
use crate::names::{header_value, same_without_case, selects_cookie, selects_header};
use crate::pieces::{argument_pieces, cookie_pieces};
use std::alloc::Global;
use waf_model::{Field, Filter, Header, Items, Memory, Part, Request, Text};

/// The texts that the field shows of the request, in order. Of a body at most `body_limit` bytes are shown, and of headers
/// and cookies those that are inspected (AWS WAF Developer Guide, "Request components" and "Oversize web request
/// components"). It fails only for want of memory.
pub fn parts(
    alloc: Global,
    request: &Request,
    field: &Field,
    body_limit: u32,
) -> Result<Items<Text>, Memory>
    ensures { IfOk result (λ parts. parts ≡ shown field.now request.now body_limit) }
{
    match field {
        Field::Method => one(alloc, request.method.bytes()),
        Field::UriPath => one(alloc, request.path.bytes()),
        Field::QueryString => one(alloc, request.query.bytes()),
        Field::Header(name) => header_part(alloc, request, name),
        Field::Argument(name) => values_of_name(alloc, request, name),
        Field::AllArguments => all_values(alloc, request),
        Field::Body(_) => one(alloc, front_of(request.body.bytes(), body_limit)),
        Field::Headers(filter, part, _) => header_parts(alloc, request, filter, *part),
        Field::Cookies(filter, part, _) => cookie_parts(alloc, request, filter, *part),
    }
}

fn one(alloc: Global, bytes: &[u8]) -> Result<Items<Text>, Memory>
    ensures { IfOk result (λ parts. parts ≡ bytes.now ∷ []) }
{
    let mut parts = Items::new(alloc);
    parts.push(Text::of(alloc, bytes)?)?;
    Ok(parts)
}

// At most so many bytes from the front.
fn front_of(bytes: &[u8], limit: u32) -> &[u8]
    ensures { result.now ≡ take limit bytes.now }
{
    if bytes.len() <= limit as usize {
        return bytes;
    }
    &bytes[..limit as usize]
}

// The value of the header of that name, if there is one.
fn header_part(alloc: Global, request: &Request, name: &Text) -> Result<Items<Text>, Memory>
    ensures { IfOk result (λ parts. parts ≡ option_to_list (value_of_header request.now name.now)) }
{
    match header_value(request, name.bytes()) {
        Some(value) => one(alloc, value),
        None => Ok(Items::new(alloc)),
    }
}

// The values of all arguments.
fn all_values(alloc: Global, request: &Request) -> Result<Items<Text>, Memory>
    ensures { IfOk result (λ parts. parts ≡ map value_in (arguments_of request.now.query)) }
{
    let pieces = argument_pieces(alloc, request.query.bytes())?;
    let values = each_value(alloc, &pieces)?;
    Ok(values)
}

fn each_value(alloc: Global, pieces: &[&[u8]]) -> Result<Items<Text>, Memory>
    ensures { IfOk result (λ values. values ≡ map value_in (texts pieces.now)) }
{
    let mut values = Items::new(alloc);
    for piece in pieces {
        values.push(Text::of(alloc, value_of(piece))?)?;
    }
    Ok(values)
}

// The values of the arguments of that name.
fn values_of_name(alloc: Global, request: &Request, name: &Text) -> Result<Items<Text>, Memory>
    ensures { IfOk result (λ parts. parts ≡ values_named name.now (arguments_of request.now.query)) }
{
    let pieces = argument_pieces(alloc, request.query.bytes())?;
    let values = each_value_named(alloc, &pieces, name)?;
    Ok(values)
}

fn each_value_named(alloc: Global, pieces: &[&[u8]], name: &Text) -> Result<Items<Text>, Memory>
    ensures { IfOk result (λ values. values ≡ values_named name.now (texts pieces.now)) }
{
    let mut values = Items::new(alloc);
    for piece in pieces {
        if same_without_case(name_of(piece), name.bytes()) {
            values.push(Text::of(alloc, value_of(piece))?)?;
        }
    }
    Ok(values)
}

// Adds what is looked at of a name and its value.
fn push_looked_at(
    alloc: Global,
    parts: &mut Items<Text>,
    part: Part,
    name: &[u8],
    value: &[u8],
) -> Result<(), Memory>
    ensures { OnOk result (parts.new ≡ parts.old ++ looked_at part name.now value.now) }
{
    match part {
        Part::Key => push_copy(alloc, parts, name),
        Part::Value => push_copy(alloc, parts, value),
        Part::Both => {
            push_copy(alloc, parts, name)?;
            push_copy(alloc, parts, value)?;
            Ok(())
        }
    }
}

fn push_copy(alloc: Global, parts: &mut Items<Text>, bytes: &[u8]) -> Result<(), Memory>
    ensures { OnOk result (parts.new ≡ parts.old ++ bytes.now ∷ []) }
{
    parts.push(Text::of(alloc, bytes)?)?;
    Ok(())
}

// Adds what is looked at of a header.
fn push_header(
    alloc: Global,
    parts: &mut Items<Text>,
    filter: &Filter,
    part: Part,
    header: &Header,
) -> Result<(), Memory>
    ensures { OnOk result (parts.new ≡ parts.old ++ of_header filter.now part header.now) }
{
    let name = header.name.bytes();
    if selects_header(filter, name) {
        push_looked_at(alloc, parts, part, name, header.value.bytes())?;
    }
    Ok(())
}

// What is looked at of the headers that are inspected.
fn header_parts(
    alloc: Global,
    request: &Request,
    filter: &Filter,
    part: Part,
) -> Result<Items<Text>, Memory>
    ensures { IfOk result (λ parts. parts ≡ flat_map (of_header filter.now part) (inspected_of header_size request.now.headers)) }
{
    let headers = inspected_headers(request.headers.as_slice());
    let parts = each_header(alloc, headers, filter, part)?;
    Ok(parts)
}

fn each_header(
    alloc: Global,
    headers: &[Header],
    filter: &Filter,
    part: Part,
) -> Result<Items<Text>, Memory>
    ensures { IfOk result (λ parts. parts ≡ flat_map (of_header filter.now part) headers.now) }
{
    let mut parts = Items::new(alloc);
    for header in headers {
        push_header(alloc, &mut parts, filter, part, header)?;
    }
    Ok(parts)
}

// Adds what is looked at of a cookie.
fn push_cookie(
    alloc: Global,
    parts: &mut Items<Text>,
    filter: &Filter,
    part: Part,
    cookie: &[u8],
) -> Result<(), Memory>
    ensures { OnOk result (parts.new ≡ parts.old ++ of_cookie filter.now part cookie.now) }
{
    let name = name_of(cookie);
    if selects_cookie(filter, name) {
        push_looked_at(alloc, parts, part, name, value_of(cookie))?;
    }
    Ok(())
}

// What is looked at of the cookies that are inspected.
fn cookie_parts(
    alloc: Global,
    request: &Request,
    filter: &Filter,
    part: Part,
) -> Result<Items<Text>, Memory>
    ensures { IfOk result (λ parts. parts ≡ flat_map (of_cookie filter.now part) (inspected_of cookie_size (request_cookies request.now))) }
{
    let all = cookies_of_request(alloc, request)?;
    let cookies = inspected_cookies(&all);
    let parts = each_cookie(alloc, cookies, filter, part)?;
    Ok(parts)
}

// The cookies of a request; none without a `cookie` header.
fn cookies_of_request(alloc: Global, request: &Request) -> Result<Vec<&[u8]>, Memory>
    ensures { IfOk result (λ cookies. texts cookies.items ≡ request_cookies request.now) }
{
    match header_value(request, b"cookie") {
        Some(value) => cookie_pieces(alloc, value),
        None => Ok(Vec::new(alloc)),
    }
}

fn each_cookie(
    alloc: Global,
    cookies: &[&[u8]],
    filter: &Filter,
    part: Part,
) -> Result<Items<Text>, Memory>
    ensures { IfOk result (λ parts. parts ≡ flat_map (of_cookie filter.now part) (texts cookies.now)) }
{
    let mut parts = Items::new(alloc);
    for cookie in cookies {
        push_cookie(alloc, &mut parts, filter, part, cookie)?;
    }
    Ok(parts)
}
