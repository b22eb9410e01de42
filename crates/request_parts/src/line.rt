//! Lines of headers.

ghost use Rattle.json_view.specs.Words.{each_from};
ghost use Rattle.request_parts.specs.RequestReading.{headers_at, headers_of, line_of, name_at, value_at, value_from};
ghost use Rattle.serde_json.specs.View.{view};
ghost use Rattle.std.specs.Prelude.{◌≡◌, map, option_map};
ghost use Rattle.waf_model.specs.Gives.{Gives};
ghost use Rattle.waf_model.specs.declared.read_fault.ReadFault.TheVariants as read_faults;

use crate::base64_text::decoded_at;
use crate::joined::joined;
use json_view::{index_path, member_path, optional_list, optional_text, text_member};
use serde_json::Value;
use std::alloc::Global;
use waf_model::{Header, Items, ReadFault, Text};

// The headers, their lines joined by name.
#[tactic(auto, unfolding(crate::specs::RequestReading::headers_at))]
pub(crate) fn headers(alloc: Global, v: &Value, path: &Text) -> Result<Items<Header>, ReadFault>
    ensures { Gives read_faults.Memory (λ headers. headers) result (headers_at (view v.now) path.now) }
{
    let all = optional_list(alloc, v, "headers", path)?;
    let at = member_path(alloc, path, "headers")?;
    let headers = joined_lines(alloc, all, &at)?;
    Ok(headers)
}

// The headers of a list of lines.
fn joined_lines(alloc: Global, all: &[Value], path: &Text) -> Result<Items<Header>, ReadFault>
    ensures { Gives read_faults.Memory (λ headers. headers) result (headers_of (map view all.now) path.now) }
{
    let lines = each_line(alloc, all, path)?;
    let headers = joined(alloc, &lines)?;
    Ok(headers)
}

// Each line of a list.
fn each_line(alloc: Global, all: &[Value], path: &Text) -> Result<Vec<Header>, ReadFault>
    ensures { Gives read_faults.Memory (λ lines. lines.items) result (each_from line_of 0 (map view all.now) path.now) }
{
    let mut lines = Vec::new(alloc);
    let mut index: u64 = 0;
    for found in all {
        let at = index_path(alloc, path, index)?;
        lines.push(line(alloc, found, &at)?)?;
        index += 1;
    }
    Ok(lines)
}

// A line.
fn line(alloc: Global, v: &Value, path: &Text) -> Result<Header, ReadFault>
    ensures { Gives read_faults.Memory (λ line. line) result (line_of (view v.now) path.now) }
{
    let name = name(alloc, v, path)?;
    let value = value(alloc, v, path)?;
    Ok(Header { name, value })
}

// The name of a line, which isn't empty.
#[tactic(auto, unfolding(crate::specs::RequestReading::name_at))]
fn name(alloc: Global, v: &Value, path: &Text) -> Result<Text, ReadFault>
    ensures { Gives read_faults.Memory (λ name. name) result (name_at (view v.now) path.now) }
{
    let text = text_member(alloc, v, "name", path)?;
    if text.len() == 0 {
        return Err(ReadFault::Name(member_path(alloc, path, "name")?));
    }
    Ok(Text::of(alloc, text.as_bytes())?)
}

// The value of a line.
#[tactic(auto, unfolding(crate::specs::RequestReading::value_at))]
fn value(alloc: Global, v: &Value, path: &Text) -> Result<Text, ReadFault>
    ensures { Gives read_faults.Memory (λ value. value) result (value_at (view v.now) path.now) }
{
    let found = optional_text(alloc, v, "valueBase64", path)?;
    let value = value_of(alloc, found, v, path)?;
    Ok(value)
}

// The value of a line, by whether it is in base64.
fn value_of(alloc: Global, found: Option<&str>, v: &Value, path: &Text) -> Result<Text, ReadFault>
    ensures { Gives read_faults.Memory (λ value. value) result (value_from (option_map (λ t. t.now) found.entry) (view v.now) path.now) }
{
    match found {
        Some(text) => {
            let at = member_path(alloc, path, "valueBase64")?;
            let value = decoded_at(alloc, text, at)?;
            Ok(value)
        }
        None => {
            let text = text_member(alloc, v, "value", path)?;
            Ok(Text::of(alloc, text.as_bytes())?)
        }
    }
}
