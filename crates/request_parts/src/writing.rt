//! The text of a request, as it is printed and read back.

ghost use Rattle.request_parts.specs.WrittenFronts.{up_to_body, up_to_headers};
ghost use Rattle.std.specs.Prelude.{◌≡◌, ◌++◌, IfOk, OnOk, codes, map, string_bytes};
ghost use Rattle.waf_model.specs.JsonText.{json_list, json_string, with_commas};
ghost use Rattle.waf_model.specs.RequestText.{address_text, base64_text, header_text, is_printable as printable, request_text, value_member};

use base64::engine::general_purpose::STANDARD;
use ip_text::write_address;
use json_text::{push_separator, push_string, push_text};
use std::alloc::Global;
use waf_model::{Address, Header, Items, Memory, Request, Text};

// Whether all bytes are 32 to 126.
fn is_printable(value: &[u8]) -> bool
    ensures { result ≡ printable value.now }
{
    value.iter().all(|byte| 32 <= *byte && *byte <= 126)
}

#[tactic(auto, unfolding(waf_model::specs::RequestText::base64_text))]
fn base64_of(alloc: Global, bytes: &[u8]) -> Result<String, Memory>
    ensures { IfOk result (λ text. string_bytes text ≡ base64_text bytes.now) }
{
    Ok(STANDARD.encode(alloc, bytes)?)
}

fn push_value(alloc: Global, text: &mut Text, value: &[u8]) -> Result<(), Memory>
    ensures { OnOk result (text.new ≡ text.old ++ value_member value.now) }
{
    if is_printable(value) {
        push_printable(text, value)
    } else {
        push_encoded(alloc, text, value)
    }
}

fn push_printable(text: &mut Text, value: &[u8]) -> Result<(), Memory>
    ensures { OnOk result (text.new ≡ text.old ++ (codes "\"value\":" ++ json_string value.now)) }
{
    text.push(b"\"value\":")?;
    push_string(text, value)?;
    Ok(())
}

fn push_encoded(alloc: Global, text: &mut Text, value: &[u8]) -> Result<(), Memory>
    ensures { OnOk result (text.new ≡ text.old ++ (codes "\"valueBase64\":" ++ json_string (base64_text value.now))) }
{
    text.push(b"\"valueBase64\":")?;
    push_base64(alloc, text, value)?;
    Ok(())
}

// Writes bytes as a text in base64.
fn push_base64(alloc: Global, text: &mut Text, bytes: &[u8]) -> Result<(), Memory>
    ensures { OnOk result (text.new ≡ text.old ++ json_string (base64_text bytes.now)) }
{
    let encoded = base64_of(alloc, bytes)?;
    push_string(text, encoded.as_bytes())
}

fn push_header(alloc: Global, text: &mut Text, header: &Header) -> Result<(), Memory>
    ensures { OnOk result (text.new ≡ text.old ++ header_text header.now) }
{
    text.push(b"{\"name\":")?;
    push_string(text, header.name.bytes())?;
    text.push(b",")?;
    push_value(alloc, text, header.value.bytes())?;
    text.push(b"}")
}

fn push_headers(alloc: Global, text: &mut Text, headers: &[Header]) -> Result<(), Memory>
    ensures { OnOk result (text.new ≡ text.old ++ with_commas (map header_text headers.now)) }
{
    for (place, header) in headers.iter().enumerate() {
        push_separator(text, place)?;
        push_header(alloc, text, header)?;
    }
    Ok(())
}

// Writes a body as a text in base64.
fn push_body(alloc: Global, text: &mut Text, body: &Text) -> Result<(), Memory>
    ensures { OnOk result (text.new ≡ text.old ++ json_string (base64_text body.now)) }
{
    push_base64(alloc, text, body.bytes())
}

// Writes the headers as a list.
fn push_header_list(alloc: Global, text: &mut Text, headers: &Items<Header>) -> Result<(), Memory>
    ensures { OnOk result (text.new ≡ text.old ++ json_list (map header_text headers.now)) }
{
    text.push(b"[")?;
    push_headers(alloc, text, headers.as_slice())?;
    text.push(b"]")?;
    Ok(())
}

// Writes the members up to the body.
fn push_to_body(alloc: Global, text: &mut Text, request: &Request) -> Result<(), Memory>
    ensures { OnOk result (text.new ≡ text.old ++ up_to_body request.now) }
{
    text.push(b"{\"args\":")?;
    push_text(text, &request.query)?;
    text.push(b",\"body\":")?;
    push_body(alloc, text, &request.body)?;
    Ok(())
}

// Writes an address as a text in quotation marks.
fn push_client(alloc: Global, text: &mut Text, address: Address) -> Result<(), Memory>
    ensures { OnOk result (text.new ≡ text.old ++ json_string (address_text address)) }
{
    let client = write_address(alloc, &address)?;
    push_text(text, &client)?;
    Ok(())
}

// Writes the members up to the headers.
fn push_to_headers(alloc: Global, text: &mut Text, request: &Request) -> Result<(), Memory>
    ensures { OnOk result (text.new ≡ text.old ++ up_to_headers request.now) }
{
    push_to_body(alloc, text, request)?;
    text.push(b",\"clientIp\":")?;
    push_client(alloc, text, request.address)?;
    text.push(b",\"headers\":")?;
    push_header_list(alloc, text, &request.headers)?;
    Ok(())
}

// Writes the request as a JSON object.
fn push_request(alloc: Global, text: &mut Text, request: &Request) -> Result<(), Memory>
    ensures { OnOk result (text.new ≡ text.old ++ request_text request.now) }
{
    push_to_headers(alloc, text, request)?;
    text.push(b",\"httpMethod\":")?;
    push_text(text, &request.method)?;
    text.push(b",\"uri\":")?;
    push_text(text, &request.path)?;
    text.push(b"}")?;
    Ok(())
}

/// The request as a JSON object, its members in the order of their names: compact, with its body in base64, and each
/// header value in base64 that has a byte other than 32 to 126. It fails only for want of memory.
pub fn write_request(alloc: Global, request: &Request) -> Result<Text, Memory>
    ensures { IfOk result (λ text. text ≡ request_text request.now) }
{
    let mut text = Text::new(alloc);
    push_request(alloc, &mut text, request)?;
    Ok(text)
}
