//! Search strings of byte matches.

ghost use Rattle.base64.specs.Engines.{standard};
ghost use Rattle.base64.specs.GeneralPurpose.{decoded_of};
ghost use Rattle.json_view.specs.Words.{meaning};
ghost use Rattle.serde_json.specs.View.{view};
ghost use Rattle.statement_json.specs.Matches.{decoded_search, fitting_search, position_at, position_words, search_at, search_of as search_in};
ghost use Rattle.std.specs.Prelude.{◌≡◌, IfOk};
ghost use Rattle.waf_model.specs.Gives.{Gives};
ghost use Rattle.waf_model.specs.RequestText.{base64_text};
ghost use Rattle.waf_model.specs.declared.read_fault.ReadFault.TheVariants as read_faults;

use crate::encoding::Encoding;
use base64::DecodeAllocError;
use base64::engine::general_purpose::STANDARD;
use json_view::{member_path, text_member};
use serde_json::Value;
use std::alloc::Global;
use waf_model::{Memory, Position, ReadFault, Text};

// The greatest length of a search string, in bytes.
const LONGEST_SEARCH: u32 = 8192;

// The bytes of the search string.
#[tactic(auto, unfolding(crate::specs::Matches::search_at))]
pub(crate) fn search(
    alloc: Global,
    encoding: Encoding,
    v: &Value,
    path: &Text,
) -> Result<Text, ReadFault>
    ensures { Gives read_faults.Memory (λ search. search) result (search_at encoding (view v.now) path.now) }
{
    let text = text_member(alloc, v, "SearchString", path)?;
    let at = member_path(alloc, path, "SearchString")?;
    search_of(alloc, encoding, text, at)
}

// The bytes that the text of a search string stands for.
fn search_of(alloc: Global, encoding: Encoding, text: &str, at: Text) -> Result<Text, ReadFault>
    ensures { Gives read_faults.Memory (λ search. search) result (search_in encoding text.now at) }
{
    match encoding {
        Encoding::Base64 => {
            let decoded = decoded(alloc, text)?;
            decoded_fitting(decoded, at)
        }
        Encoding::Plain => fitting(Text::of(alloc, text.as_bytes())?, at),
    }
}

// The decoded bytes, where there are any and not too many.
fn decoded_fitting(decoded: Option<Text>, at: Text) -> Result<Text, ReadFault>
    ensures { result ≡ decoded_search decoded at }
{
    match decoded {
        None => Err(ReadFault::Base64(at)),
        Some(bytes) => fitting(bytes, at),
    }
}

// The bytes, unless there are too many.
fn fitting(bytes: Text, at: Text) -> Result<Text, ReadFault>
    ensures { result ≡ fitting_search bytes at }
{
    if bytes.bytes().len() > LONGEST_SEARCH as usize {
        Err(ReadFault::Limit(at, LONGEST_SEARCH))
    } else {
        Ok(bytes)
    }
}

// The bytes of a text in canonical base64, or None where it is no such text.
#[tactic(auto, unfolding(base64::specs::GeneralPurpose::decoded_of))]
fn decoded(alloc: Global, text: &str) -> Result<Option<Text>, Memory>
    ensures { IfOk result (λ bytes. bytes ≡ decoded_of standard text.now) }
{
    match STANDARD.decode(alloc, text.as_bytes()) {
        Ok(bytes) => Ok(Some(Text::from_vec(bytes))),
        Err(DecodeAllocError::OutOfMemory) => Err(Memory),
        Err(DecodeAllocError::DecodeError(_)) => Ok(None),
    }
}

// Where the search string must stand in the text.
#[tactic(auto, unfolding(crate::specs::Matches::position_at))]
pub(crate) fn position(alloc: Global, v: &Value, path: &Text) -> Result<Position, ReadFault>
    ensures { Gives read_faults.Memory (λ position. position) result (position_at (view v.now) path.now) }
{
    let word = text_member(alloc, v, "PositionalConstraint", path)?;
    match position_of(word) {
        Some(position) => Ok(position),
        None => Err(ReadFault::Name(member_path(alloc, path, "PositionalConstraint")?)),
    }
}

// What the word for the place of a search string means.
fn position_of(word: &str) -> Option<Position>
    ensures { result ≡ meaning position_words word.now }
{
    if word == "EXACTLY" {
        Some(Position::Exactly)
    } else if word == "STARTS_WITH" {
        Some(Position::Starts)
    } else if word == "ENDS_WITH" {
        Some(Position::Ends)
    } else if word == "CONTAINS" {
        Some(Position::Contains)
    } else if word == "CONTAINS_WORD" {
        Some(Position::Word)
    } else {
        None
    }
}
