//! Fields to match.

ghost use Rattle.json_view.specs.Words.{meaning};
ghost use Rattle.serde_json.specs.View.{view};
ghost use Rattle.statement_json.specs.Fields.{argument_of, body_of, cookies_of, field_at, field_by as field_with, field_named as field_for, field_of as field_in, header_of, headers_of, known_if as known_where, oversize_at, oversize_words};
ghost use Rattle.std.specs.Prelude.{◌≡◌};
ghost use Rattle.waf_model.specs.Gives.{Gives};
ghost use Rattle.waf_model.specs.declared.read_fault.ReadFault.TheVariants as read_faults;

use crate::field_kind::FieldKind;
use crate::field_name::{FieldName, field_name_of};
use crate::filter::{filter, has_tokens, part};
use crate::token::is_token;
use json_view::{copy_of, member, member_count, member_path, optional, text, text_member};
use serde_json::Value;
use std::alloc::Global;
use waf_model::{Field, Oversize, ReadFault, Text};

// The field to match.
#[tactic(auto, unfolding(crate::specs::Fields::field_at))]
pub(crate) fn field(alloc: Global, v: &Value, path: &Text) -> Result<FieldKind, ReadFault>
    ensures { Gives read_faults.Memory (λ kind. kind) result (field_at (view v.now) path.now) }
{
    let found = member(alloc, v, "FieldToMatch", path)?;
    let at = member_path(alloc, path, "FieldToMatch")?;
    field_of(alloc, found, &at)
}

// A field to match, which has exactly one member.
#[tactic(auto, unfolding(crate::specs::Fields::field_of))]
fn field_of(alloc: Global, v: &Value, path: &Text) -> Result<FieldKind, ReadFault>
    ensures { Gives read_faults.Memory (λ kind. kind) result (field_in (view v.now) path.now) }
{
    if member_count(v) != 1 {
        return Err(ReadFault::Shape(copy_of(alloc, path)?));
    }
    match field_name_of(v) {
        Some(name) => field_named(alloc, name, v, path),
        None => Ok(FieldKind::Other),
    }
}

// The field of that name.
fn field_named(
    alloc: Global,
    name: FieldName,
    v: &Value,
    path: &Text,
) -> Result<FieldKind, ReadFault>
    ensures { Gives read_faults.Memory (λ kind. kind) result (field_for (Some name) (view v.now) path.now) }
{
    let found = member(alloc, v, name.member(), path)?;
    let at = member_path(alloc, path, name.member())?;
    field_by(alloc, name, found, &at)
}

// The field that a member of that name is, by its value.
fn field_by(alloc: Global, name: FieldName, v: &Value, path: &Text) -> Result<FieldKind, ReadFault>
    ensures { Gives read_faults.Memory (λ kind. kind) result (field_with name (view v.now) path.now) }
{
    match name {
        FieldName::UriPath => Ok(FieldKind::Known(Field::UriPath)),
        FieldName::QueryString => Ok(FieldKind::Known(Field::QueryString)),
        FieldName::Method => Ok(FieldKind::Known(Field::Method)),
        FieldName::AllQueryArguments => Ok(FieldKind::Known(Field::AllArguments)),
        FieldName::JsonBody => Ok(FieldKind::JsonBody),
        FieldName::SingleHeader => header(alloc, v, path),
        FieldName::SingleQueryArgument => argument(alloc, v, path),
        FieldName::Body => body(alloc, v, path),
        FieldName::Headers => headers(alloc, v, path),
        FieldName::Cookies => cookies(alloc, v, path),
    }
}

// A field that is evaluated only where it is so.
fn known_if(evaluated: bool, field: Field) -> FieldKind
    ensures { result ≡ known_where evaluated field }
{
    if evaluated {
        FieldKind::Known(field)
    } else {
        FieldKind::Other
    }
}

// One header; no request has one whose name is no token.
#[tactic(auto, unfolding(crate::specs::Fields::header_of))]
fn header(alloc: Global, v: &Value, path: &Text) -> Result<FieldKind, ReadFault>
    ensures { Gives read_faults.Memory (λ kind. kind) result (header_of (view v.now) path.now) }
{
    let name = Text::of(alloc, text_member(alloc, v, "Name", path)?.as_bytes())?;
    Ok(known_if(is_token(name.bytes()), Field::Header(name)))
}

// The arguments of one name.
#[tactic(auto, unfolding(crate::specs::Fields::argument_of))]
fn argument(alloc: Global, v: &Value, path: &Text) -> Result<FieldKind, ReadFault>
    ensures { Gives read_faults.Memory (λ kind. kind) result (argument_of (view v.now) path.now) }
{
    let name = Text::of(alloc, text_member(alloc, v, "Name", path)?.as_bytes())?;
    Ok(FieldKind::Known(Field::Argument(name)))
}

// The body.
#[tactic(auto, unfolding(crate::specs::Fields::body_of))]
fn body(alloc: Global, v: &Value, path: &Text) -> Result<FieldKind, ReadFault>
    ensures { Gives read_faults.Memory (λ kind. kind) result (body_of (view v.now) path.now) }
{
    let oversize = oversize(alloc, v, path)?;
    Ok(FieldKind::Known(Field::Body(oversize)))
}

// Headers by a filter.
#[tactic(auto, unfolding(crate::specs::Fields::headers_of))]
fn headers(alloc: Global, v: &Value, path: &Text) -> Result<FieldKind, ReadFault>
    ensures { Gives read_faults.Memory (λ kind. kind) result (headers_of (view v.now) path.now) }
{
    let filter = filter(alloc, "IncludedHeaders", "ExcludedHeaders", v, path)?;
    let part = part(alloc, v, path)?;
    let oversize = oversize(alloc, v, path)?;
    let evaluated = has_tokens(&filter);
    Ok(known_if(evaluated, Field::Headers(filter, part, oversize)))
}

// Cookies by a filter.
#[tactic(auto, unfolding(crate::specs::Fields::cookies_of))]
fn cookies(alloc: Global, v: &Value, path: &Text) -> Result<FieldKind, ReadFault>
    ensures { Gives read_faults.Memory (λ kind. kind) result (cookies_of (view v.now) path.now) }
{
    let filter = filter(alloc, "IncludedCookies", "ExcludedCookies", v, path)?;
    let part = part(alloc, v, path)?;
    let oversize = oversize(alloc, v, path)?;
    Ok(FieldKind::Known(Field::Cookies(filter, part, oversize)))
}

// What is done with a part that is larger than is inspected; it goes on where that isn't said.
#[tactic(auto, unfolding(crate::specs::Fields::oversize_at))]
fn oversize(alloc: Global, v: &Value, path: &Text) -> Result<Oversize, ReadFault>
    ensures { Gives read_faults.Memory (λ oversize. oversize) result (oversize_at (view v.now) path.now) }
{
    let Some(found) = optional(alloc, v, "OversizeHandling", path)? else {
        return Ok(Oversize::Continue);
    };
    let at = member_path(alloc, path, "OversizeHandling")?;
    match oversize_of(text(alloc, found, &at)?) {
        Some(oversize) => Ok(oversize),
        None => Err(ReadFault::Name(at)),
    }
}

// What the word for what is done with a part that is too large means.
fn oversize_of(word: &str) -> Option<Oversize>
    ensures { result ≡ meaning oversize_words word.now }
{
    if word == "CONTINUE" {
        Some(Oversize::Continue)
    } else if word == "MATCH" {
        Some(Oversize::Match)
    } else if word == "NO_MATCH" {
        Some(Oversize::NoMatch)
    } else {
        None
    }
}
