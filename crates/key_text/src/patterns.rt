//! The key of a reference to a pattern set, beside which the patterns of the set stand.

ghost use Rattle.key_text.specs.Edited.{rest_text};
ghost use Rattle.key_text.specs.Keys.{text_items, with_patterns};
ghost use Rattle.serde_json.specs.Data.{Data, Members, array, member, no_members, put};
ghost use Rattle.serde_json.specs.View.{members_view, view};
ghost use Rattle.serde_json.specs.Written.{compact_text, has_float, items_text, members_have_float, members_text};
ghost use Rattle.std.specs.Cmp.Lexicographic.{slice_cmp};
ghost use Rattle.std.specs.Ordering.{nat_cmp};
ghost use Rattle.std.specs.Prelude.{◌≡◌, ◌++◌, ◌∷◌, IfOk, OnOk, false, true};

use crate::member::push_written;
use crate::quotation::{byte_quotation, text_of};
use serde_json::{Map, Value};
use std::alloc::Global;
use std::cmp::Ordering;
use waf_model::{Memory, Text};

// The member that holds the patterns.
const PATTERNS: &str = "RegularExpressionList";

/// The key of a reference to a pattern set of these texts: the statement with the list of them, in place of a null member
/// of that name. Of a statement that holds a number that isn't whole it tells nothing. It fails only for want of memory.
pub fn patterns_key(alloc: Global, texts: &[Text], statement: &Value) -> Result<Text, Memory>
    ensures { IfOk result (λ key. has_float (view statement.now) ≡ false → key ≡ compact_text (with_patterns texts.now (view statement.now))) }
{
    let list = list_text(alloc, texts)?;
    match statement.as_object() {
        Some(members) => put_text(alloc, members, PATTERNS, &list),
        None => text_of(alloc, statement),
    }
}

// The texts as a list.
fn list_text(alloc: Global, texts: &[Text]) -> Result<Text, Memory>
    ensures { IfOk result (λ list. list ≡ compact_text (array (text_items texts.now))) }
{
    let mut list = Text::of(alloc, b"[")?;
    let mut later = false;
    for text in texts {
        if later {
            list.push(b",")?;
        }
        list.push(byte_quotation(alloc, text)?.bytes())?;
        later = true;
    }
    list.push(b"]")?;
    Ok(list)
}

// The text of an object with a member of that name whose value is written so.
fn put_text(
    alloc: Global,
    members: &Map<String, Value>,
    name: &str,
    written: &Text,
) -> Result<Text, Memory>
    ensures { IfOk result (λ text. (value : Data) → written.now ≡ compact_text value → members_have_float (members_view members.now.entries) ≡ false
        → text ≡ 123 ∷ members_text false (put name.now value (members_view members.now.entries))) }
{
    let mut text = Text::of(alloc, b"{")?;
    let mut later = false;
    let mut placed = false;
    for (key, value) in members.iter() {
        let own = text_of(alloc, value)?;
        placed = push_next(
            alloc,
            &mut text,
            later,
            placed,
            name,
            written,
            key.as_str(),
            &own,
        )?;
        later = true;
    }
    push_last(alloc, &mut text, later, placed, name, written)?;
    Ok(text)
}

// Adds the member of that key, and before or in place of it the one of that name, if it isn't placed yet and belongs
// there. Gives whether it is placed then.
fn push_next(
    alloc: Global,
    text: &mut Text,
    later: bool,
    placed: bool,
    name: &str,
    written: &Text,
    key: &str,
    own: &Text,
) -> Result<bool, Memory>
    ensures { IfOk result (λ after. (d value : Data) → (rest : Members) → own.now ≡ compact_text d → written.now ≡ compact_text value
        → text.new ++ rest_text after true name.now value rest ≡ text.old ++ rest_text placed later name.now value (member key.now d rest)) }
{
    if placed {
        push_written(alloc, text, later, key, own)?;
        return Ok(true);
    }
    match compare(name, key) {
        Ordering::Less => {
            push_written(alloc, text, later, name, written)?;
            push_written(alloc, text, true, key, own)?;
            Ok(true)
        }
        Ordering::Equal => {
            push_written(alloc, text, later, key, written)?;
            Ok(true)
        }
        Ordering::Greater => {
            push_written(alloc, text, later, key, own)?;
            Ok(false)
        }
    }
}

// Adds the member, if it isn't placed yet, and the closing bracket.
fn push_last(
    alloc: Global,
    text: &mut Text,
    later: bool,
    placed: bool,
    name: &str,
    written: &Text,
) -> Result<(), Memory>
    ensures { OnOk result ((value : Data) → written.now ≡ compact_text value
        → text.new ≡ text.old ++ rest_text placed later name.now value no_members) }
{
    if !placed {
        push_written(alloc, text, later, name, written)?;
    }
    text.push(b"}")
}

fn compare<'a>(one: &'a str, other: &'a str) -> Ordering
    ensures { result ≡ slice_cmp nat_cmp one.now other.now }
{
    Ord::cmp(&one, &other)
}
