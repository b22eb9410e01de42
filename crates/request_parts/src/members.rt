//! The members of a request but its headers.

ghost use Rattle.request_parts.specs.RequestReading.{body_at, body_from, client_at, method_at, or_empty, query_at};
ghost use Rattle.serde_json.specs.View.{view};
ghost use Rattle.std.specs.Prelude.{◌≡◌, IfOk, option_map};
ghost use Rattle.waf_model.specs.Gives.{Gives};
ghost use Rattle.waf_model.specs.Within.{is_token as is_token_text};
ghost use Rattle.waf_model.specs.declared.read_fault.ReadFault.TheVariants as read_faults;

use crate::base64_text::decoded_at;
use http::method::{Method, MethodError};
use ip_text::read_address;
use json_view::{member_path, optional_text, text_member};
use serde_json::Value;
use std::alloc::Global;
use waf_model::{Address, Memory, ReadFault, Text};

// Whether the text is a token, as each method is (RFC 9110, 9.1). It fails only for want of memory.
#[tactic(auto, using(crate::proofs::Tokens::token_test, crate::proofs::Tokens::no_token_test))]
fn is_token(alloc: Global, text: &[u8]) -> Result<bool, Memory>
    ensures { IfOk result (λ token. token ≡ is_token_text text.now) }
{
    match Method::from_bytes(alloc, text) {
        Ok(_) => Ok(true),
        Err(MethodError::Invalid) => Ok(false),
        Err(MethodError::OutOfMemory) => Err(Memory),
    }
}

// The method, which is a token.
#[tactic(auto, unfolding(crate::specs::RequestReading::method_at))]
pub(crate) fn method(alloc: Global, v: &Value, path: &Text) -> Result<Text, ReadFault>
    ensures { Gives read_faults.Memory (λ method. method) result (method_at (view v.now) path.now) }
{
    let text = text_member(alloc, v, "httpMethod", path)?;
    if !is_token(alloc, text.as_bytes())? {
        return Err(ReadFault::Name(member_path(alloc, path, "httpMethod")?));
    }
    Ok(Text::of(alloc, text.as_bytes())?)
}

// The query.
#[tactic(auto, unfolding(crate::specs::RequestReading::query_at))]
pub(crate) fn query(alloc: Global, v: &Value, path: &Text) -> Result<Text, ReadFault>
    ensures { Gives read_faults.Memory (λ query. query) result (query_at (view v.now) path.now) }
{
    let found = optional_text(alloc, v, "args", path)?;
    Ok(text_or_empty(alloc, found)?)
}

// The text, which is empty where there is none.
fn text_or_empty(alloc: Global, found: Option<&str>) -> Result<Text, Memory>
    ensures { IfOk result (λ text. text ≡ or_empty (option_map (λ t. t.now) found.entry)) }
{
    match found {
        Some(text) => Text::of(alloc, text.as_bytes()),
        None => Ok(Text::new(alloc)),
    }
}

// The client's address.
#[tactic(auto, unfolding(crate::specs::RequestReading::client_at))]
pub(crate) fn client(alloc: Global, v: &Value, path: &Text) -> Result<Address, ReadFault>
    ensures { Gives read_faults.Memory (λ client. client) result (client_at (view v.now) path.now) }
{
    let text = text_member(alloc, v, "clientIp", path)?;
    match read_address(text.as_bytes()) {
        Some(address) => Ok(address),
        None => Err(ReadFault::Address(member_path(alloc, path, "clientIp")?)),
    }
}

// The body.
#[tactic(auto, unfolding(crate::specs::RequestReading::body_at))]
pub(crate) fn body(alloc: Global, v: &Value, path: &Text) -> Result<Text, ReadFault>
    ensures { Gives read_faults.Memory (λ body. body) result (body_at (view v.now) path.now) }
{
    let found = optional_text(alloc, v, "body", path)?;
    let at = member_path(alloc, path, "body")?;
    let body = body_of(alloc, found, at)?;
    Ok(body)
}

// The bytes of a body in base64, none where it is absent.
fn body_of(alloc: Global, found: Option<&str>, at: Text) -> Result<Text, ReadFault>
    ensures { Gives read_faults.Memory (λ body. body) result (body_from (option_map (λ t. t.now) found.entry) at) }
{
    match found {
        Some(text) => decoded_at(alloc, text, at),
        None => Ok(Text::new(alloc)),
    }
}
