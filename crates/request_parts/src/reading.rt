//! Recorded requests.

ghost use Rattle.request_parts.specs.RequestReading.{logged_or_top as logged_or_top_of, request_at, request_of, request_reading};
ghost use Rattle.serde_json.specs.View.{view};
ghost use Rattle.std.specs.Prelude.{◌≡◌, Some, codes, option_map};
ghost use Rattle.waf_model.specs.Gives.{Gives};
ghost use Rattle.waf_model.specs.Json.{member_path as member_behind};
ghost use Rattle.waf_model.specs.declared.read_fault.ReadFault.TheVariants as read_faults;

use crate::line::headers;
use crate::members::{body, client, method, query};
use json_view::{is_object, member_path, parse, present_member, text_member};
use serde_json::Value;
use std::alloc::Global;
use waf_model::{ReadFault, Request, Text};

/// The request that the bytes are read as: that of an object, or of its member `httpRequest` where that is an object, as
/// in a line of the log. It fails where memory was wanting, with `Json` where the bytes are no JSON text, and else with
/// the first fault: `Shape` of a member that is absent or of another JSON kind, `Name` of a method that is no token or a
/// header name that is empty, `Address` of a client that is no address, `Base64` of a value or body that is no canonical
/// base64.
#[tactic(auto, unfolding(crate::specs::RequestReading::request_reading))]
pub fn read_request(alloc: Global, bytes: &[u8]) -> Result<Request, ReadFault>
    ensures { Gives read_faults.Memory (λ request. request) result (request_reading bytes.now) }
{
    match parse(alloc, bytes)? {
        Some(top) => request_in(alloc, &top),
        None => Err(ReadFault::Json),
    }
}

// The request of a text that was parsed.
fn request_in(alloc: Global, v: &Value) -> Result<Request, ReadFault>
    ensures { Gives read_faults.Memory (λ request. request) result (request_of (Some (view v.now))) }
{
    let logged = present_member(v, "httpRequest");
    let request = logged_or_top(alloc, logged, v)?;
    Ok(request)
}

// The request of that object of a line of the log, or else of the top.
fn logged_or_top(alloc: Global, logged: Option<&Value>, v: &Value) -> Result<Request, ReadFault>
    ensures { Gives read_faults.Memory (λ request. request) result (logged_or_top_of (option_map (λ found. view found.now) logged.entry) (view v.now)) }
{
    match logged {
        Some(found) => object_or_top(alloc, found, v),
        None => top_request(alloc, v),
    }
}

// The request of that value where it is an object, and else of the top.
fn object_or_top(alloc: Global, found: &Value, v: &Value) -> Result<Request, ReadFault>
    ensures { Gives read_faults.Memory (λ request. request) result (logged_or_top_of (Some (view found.now)) (view v.now)) }
{
    if is_object(found) {
        logged_request(alloc, found)
    } else {
        top_request(alloc, v)
    }
}

// The request of a line of the log.
fn logged_request(alloc: Global, v: &Value) -> Result<Request, ReadFault>
    ensures { Gives read_faults.Memory (λ request. request) result (request_at (view v.now) (member_behind (codes "$") (codes "httpRequest"))) }
{
    let top = Text::of(alloc, b"$")?;
    let at = member_path(alloc, &top, "httpRequest")?;
    let request = request(alloc, v, &at)?;
    Ok(request)
}

// The request of the top.
fn top_request(alloc: Global, v: &Value) -> Result<Request, ReadFault>
    ensures { Gives read_faults.Memory (λ request. request) result (request_at (view v.now) (codes "$")) }
{
    let top = Text::of(alloc, b"$")?;
    let request = request(alloc, v, &top)?;
    Ok(request)
}

// The members of a request.
#[tactic(auto, unfolding(crate::specs::RequestReading::request_at))]
fn request(alloc: Global, v: &Value, path: &Text) -> Result<Request, ReadFault>
    ensures { Gives read_faults.Memory (λ request. request) result (request_at (view v.now) path.now) }
{
    let method = method(alloc, v, path)?;
    let uri = Text::of(alloc, text_member(alloc, v, "uri", path)?.as_bytes())?;
    let query = query(alloc, v, path)?;
    let client = client(alloc, v, path)?;
    let headers = headers(alloc, v, path)?;
    let body = body(alloc, v, path)?;
    Ok(Request {
        method,
        path: uri,
        query,
        headers,
        body,
        address: client,
    })
}
