//! Whether a value holds a float, a number that isn't whole from -2^63 to 2^64 - 1. Such a value has no key.

ghost use Rattle.key_text.specs.Edited.{edited_has_float};
ghost use Rattle.key_text.specs.Keys.{unscoped, with_search, with_value, without};
ghost use Rattle.serde_json.specs.Data.{Data};
ghost use Rattle.serde_json.specs.View.{items_view, members_view, view};
ghost use Rattle.serde_json.specs.Written.{has_float, items_have_float, members_have_float};
ghost use Rattle.std.specs.Prelude.{◌≡◌, ℕ, List, false};

use crate::member::SCOPE_DOWN;
use serde_json::{Map, Value};

/// Whether the value is a float, or holds one at any depth.
#[cycle(floats)]
pub fn holds_float(v: &Value) -> bool
    ensures { result ≡ has_float (view v.now) }
{
    match v {
        Value::Null | Value::Bool(_) | Value::String(_) => false,
        Value::Number(number) => number.is_f64(),
        Value::Array(items) => any_item(items),
        Value::Object(members) => any_member(members),
    }
}

#[cycle(floats)]
fn any_item(items: &[Value]) -> bool
    ensures { result ≡ items_have_float (items_view items.now) }
{
    for item in items {
        if holds_float(item) {
            return true;
        }
    }
    false
}

#[cycle(floats)]
#[tactic(auto, using(crate::proofs::Floats::values_of_members))]
fn any_member(members: &Map<String, Value>) -> bool
    ensures { result ≡ members_have_float (members_view members.now.entries) }
{
    for value in members.values() {
        if holds_float(value) {
            return true;
        }
    }
    false
}

/// Whether the statement of that kind, whose value is `found`, holds a float outside of the statement that it is scoped
/// down to.
pub fn unscoped_holds_float(kind: &str, found: &Value, statement: &Value) -> bool
    ensures { result ≡ has_float (unscoped kind.now (view found.now) (view statement.now)) }
{
    let other = holds_float_but(found, SCOPE_DOWN, false);
    holds_float_but(statement, kind, other)
}

/// Whether the byte match, whose value is `found`, holds a number that isn't whole, which doesn't depend on its search
/// string.
pub fn search_holds_float(found: &Value, statement: &Value) -> bool
    ensures { (search : List ℕ) → result ≡ has_float (with_search search (view found.now) (view statement.now)) }
{
    let other = holds_float_but(found, "SearchString", false);
    holds_float_but(statement, "ByteMatchStatement", other)
}

// Whether the value holds a float, where `other` stands for whether its member of that name does.
#[tactic(auto, using(crate::proofs::Floats::object_without, crate::proofs::Floats::object_with, crate::proofs::Floats::others_without, crate::proofs::Floats::others_with))]
fn holds_float_but(v: &Value, name: &str, other: bool) -> bool
    ensures without { other ≡ false → result ≡ has_float (without name.now (view v.now)) }
    ensures with { (d : Data) → other ≡ has_float d → result ≡ has_float (with_value name.now d (view v.now)) }
{
    match v.as_object() {
        Some(members) => any_member_but(members, name, other),
        None => holds_float(v),
    }
}

fn any_member_but(members: &Map<String, Value>, name: &str, other: bool) -> bool
    ensures { result ≡ edited_has_float other name.now (members_view members.now.entries) }
{
    for (key, value) in members.iter() {
        let holds = if key.as_str() == name {
            other
        } else {
            holds_float(value)
        };
        if holds {
            return true;
        }
    }
    false
}
