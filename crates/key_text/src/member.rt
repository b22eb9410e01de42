//! The text of an object of which one member has another value, or none.

ghost use Rattle.json.specs.Print.{quoted};
ghost use Rattle.key_text.specs.Edited.{edited_text, written_member};
ghost use Rattle.key_text.specs.Keys.{IsTextOf, other_members, with_value, without};
ghost use Rattle.serde_json.specs.Data.{Data};
ghost use Rattle.serde_json.specs.View.{members_view, view};
ghost use Rattle.serde_json.specs.Written.{comma_if, members_have_float};
ghost use Rattle.std.specs.Prelude.{◌≡◌, ◌++◌, ◌∷◌, ℕ, List, Bool, false, IfOk, OnOk, option_map};

use crate::quotation::{quotation, text_of};
use serde_json::{Map, Value};
use std::alloc::Global;
use waf_model::{Memory, Text};

// The member of a rate-based statement or a managed group that holds the statement that it is scoped down to.
pub(crate) const SCOPE_DOWN: &str = "ScopeDownStatement";

// The text of the value without the member of that name.
#[tactic(auto, using(crate::proofs::Texts::object_without, crate::proofs::Floats::others_without))]
pub(crate) fn text_without(alloc: Global, v: &Value, name: &str) -> Result<Text, Memory>
    ensures { IfOk result (λ text. IsTextOf text (without name.now (view v.now))) }
{
    match v.as_object() {
        Some(members) => edited(alloc, members, name, None),
        None => text_of(alloc, v),
    }
}

// The text of the value with another value, which is written so, for the member of that name.
#[tactic(auto, using(crate::proofs::Texts::object_with, crate::proofs::Floats::others_with))]
pub(crate) fn text_with(
    alloc: Global,
    v: &Value,
    name: &str,
    written: &Text,
) -> Result<Text, Memory>
    ensures { IfOk result (λ text. (value : Data) → IsTextOf written.now value
        → IsTextOf text (with_value name.now value (view v.now))) }
{
    match v.as_object() {
        Some(members) => edited(alloc, members, name, Some(written)),
        None => text_of(alloc, v),
    }
}

// The text of an object with `other` for the value of the member of that name, or without that member where there is
// no other.
fn edited(
    alloc: Global,
    members: &Map<String, Value>,
    name: &str,
    other: Option<&Text>,
) -> Result<Text, Memory>
    ensures { IfOk result (λ text. members_have_float (other_members name.now (members_view members.now.entries)) ≡ false
        → text ≡ 123 ∷ edited_text (option_map (λ written. written.now) other.entry) name.now (members_view members.now.entries) false) }
{
    let mut text = Text::of(alloc, b"{")?;
    let mut later = false;
    for (key, value) in members.iter() {
        if key.as_str() == name {
            later = push_member(alloc, &mut text, later, key.as_str(), other)?;
        } else {
            let own = text_of(alloc, value)?;
            later = push_member(alloc, &mut text, later, key.as_str(), Some(&own))?;
        }
    }
    text.push(b"}")?;
    Ok(text)
}

// Adds a member whose value is written so, or nothing where there is none; `later` says whether one stands before.
// Gives whether one stands before the next.
pub(crate) fn push_member(
    alloc: Global,
    text: &mut Text,
    later: bool,
    name: &str,
    written: Option<&Text>,
) -> Result<bool, Memory>
    ensures { IfOk result (λ after. (rest : Bool → List ℕ)
        → text.new ++ rest after ≡ text.old ++ written_member later name.now (option_map (λ value. value.now) written.entry) rest) }
{
    match written {
        None => Ok(later),
        Some(value) => {
            push_written(alloc, text, later, name, value)?;
            Ok(true)
        }
    }
}

// Adds a member whose value is written so; `later` says whether one stands before.
pub(crate) fn push_written(
    alloc: Global,
    text: &mut Text,
    later: bool,
    name: &str,
    value: &Text,
) -> Result<(), Memory>
    ensures { OnOk result (text.new ≡ text.old ++ (comma_if later ++ (quoted name.now ++ 58 ∷ value.now))) }
{
    if later {
        text.push(b",")?;
    }
    text.push(quotation(alloc, name)?.bytes())?;
    text.push(b":")?;
    text.push(value.bytes())
}
