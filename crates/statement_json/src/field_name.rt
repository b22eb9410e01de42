//! The members that a field to match may have.

ghost use Rattle.json_view.specs.Words.{is_there as there_in};
ghost use Rattle.serde_json.specs.View.{view};
ghost use Rattle.statement_json.specs.FieldNames.{field_name_of as field_name_in, list_name_of as list_name_in, member_of};
ghost use Rattle.std.specs.Prelude.{◌≡◌};

use json_view::is_there;
use serde_json::Value;

/// The one member of a field to match that is known here.
#[derive(Clone, Copy, Drop)]
pub(crate) enum FieldName {
    UriPath,
    QueryString,
    Method,
    AllQueryArguments,
    JsonBody,
    SingleHeader,
    SingleQueryArgument,
    Body,
    Headers,
    Cookies,
}

impl FieldName {
    // The member's name.
    pub(crate) fn member(self) -> &'static str
        ensures { result.now ≡ member_of self }
    {
        match self {
            FieldName::UriPath => "UriPath",
            FieldName::QueryString => "QueryString",
            FieldName::Method => "Method",
            FieldName::AllQueryArguments => "AllQueryArguments",
            FieldName::JsonBody => "JsonBody",
            FieldName::SingleHeader => "SingleHeader",
            FieldName::SingleQueryArgument => "SingleQueryArgument",
            FieldName::Body => "Body",
            FieldName::Headers => "Headers",
            FieldName::Cookies => "Cookies",
        }
    }
}

// The name of the member that is there, if it is known.
#[tactic(auto, unfolding(crate::specs::FieldNames::field_name_of))]
pub(crate) fn field_name_of(v: &Value) -> Option<FieldName>
    ensures { result ≡ field_name_in (view v.now) }
{
    if is_there(v, "UriPath") {
        Some(FieldName::UriPath)
    } else if is_there(v, "QueryString") {
        Some(FieldName::QueryString)
    } else if is_there(v, "Method") {
        Some(FieldName::Method)
    } else if is_there(v, "AllQueryArguments") {
        Some(FieldName::AllQueryArguments)
    } else if is_there(v, "JsonBody") {
        Some(FieldName::JsonBody)
    } else {
        list_name_of(v)
    }
}

// The name of the member that is there and has members of its own, if it is known.
fn list_name_of(v: &Value) -> Option<FieldName>
    ensures { result ≡ list_name_in (view v.now) }
{
    if is_there(v, "SingleHeader") {
        Some(FieldName::SingleHeader)
    } else if is_there(v, "SingleQueryArgument") {
        Some(FieldName::SingleQueryArgument)
    } else if is_there(v, "Body") {
        Some(FieldName::Body)
    } else if is_there(v, "Headers") {
        Some(FieldName::Headers)
    } else if is_there(v, "Cookies") {
        Some(FieldName::Cookies)
    } else {
        None
    }
}
