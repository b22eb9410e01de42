//! Members of objects and elements of lists.

ghost use Rattle.json_view.specs.Faults.{fault_of};
ghost use Rattle.json_view.specs.declared.fault.ViewFault.TheVariants as faults;
ghost use Rattle.serde_json.specs.View.{members_view, view};
ghost use Rattle.std.specs.Prelude.{◌≡◌, map, option_map};
ghost use Rattle.waf_model.specs.Gives.{GivesAs};
ghost use Rattle.waf_model.specs.Json.{is_null as null_data, is_object as object_data, list_at, member_at, member_count as members_there, optional_at, present, present_members};
ghost use Rattle.serde_json.specs.Find.{get};
ghost use Rattle.json_view.specs.Words.{is_there as there_in};

use crate::fault::{ViewFault, shape};
use crate::path::member_path;
use serde_json::{Map, Value};
use std::alloc::Global;
use waf_model::Text;

/// Whether the value is null.
#[tactic(auto, using(crate::proofs::Viewed::is_null_view))]
pub fn is_null(v: &Value) -> bool
    ensures { result ≡ null_data (view v.now) }
{
    v.is_null()
}

/// Whether the value is an object.
#[tactic(auto, using(crate::proofs::Viewed::is_object_view))]
pub fn is_object(v: &Value) -> bool
    ensures { result ≡ object_data (view v.now) }
{
    v.is_object()
}

/// The member of that name, if it is there, where null counts as absent; Shape at the path where the value is no object.
pub fn optional<'a>(
    alloc: Global,
    v: &'a Value,
    name: &str,
    path: &Text,
) -> Result<Option<&'a Value>, ViewFault>
    ensures { GivesAs fault_of faults.Memory (λ found. option_map (λ m. view m.now) found) result (optional_at (view v.now) name.now path.now) }
{
    if !is_object(v) {
        return Err(shape(alloc, path));
    }
    Ok(present_member(v, name))
}

/// The member of that name; Shape at the path where the value is no object, and Shape at the member's path where the
/// member is absent or null.
pub fn member<'a>(
    alloc: Global,
    v: &'a Value,
    name: &str,
    path: &Text,
) -> Result<&'a Value, ViewFault>
    ensures { GivesAs fault_of faults.Memory (λ found. view found.now) result (member_at (view v.now) name.now path.now) }
{
    match optional(alloc, v, name, path)? {
        Some(found) => Ok(found),
        None => Err(shape(alloc, &member_path(alloc, path, name)?)),
    }
}

/// The elements of a list, in order, or Shape at the path.
#[tactic(auto, using(crate::proofs::Viewed::list_of))]
pub fn list<'a>(alloc: Global, v: &'a Value, path: &Text) -> Result<&'a [Value], ViewFault>
    ensures { GivesAs fault_of faults.Memory (λ found. map view found.now) result (list_at (view v.now) path.now) }
{
    match v.as_array() {
        Some(items) => Ok(items.as_slice()),
        None => Err(shape(alloc, path)),
    }
}

/// Whether a member of that name is there; null counts as absent.
pub fn is_there(v: &Value, name: &str) -> bool
    ensures { result ≡ there_in name.now (view v.now) }
{
    present_member(v, name).is_some()
}

/// How many members of an object are there; 0 where the value is no object.
#[tactic(auto, using(crate::proofs::Counted::members_of_object, crate::proofs::Counted::members_of_others))]
pub fn member_count(v: &Value) -> usize
    ensures { result ≡ members_there (view v.now) }
{
    match v.as_object() {
        Some(members) => count_present(members),
        None => 0,
    }
}

// How many of the members are not null.
#[tactic(auto, using(crate::proofs::Counted::present_members_view))]
fn count_present(members: &Map<String, Value>) -> usize
    ensures { result ≡ present_members (members_view members.now.entries) }
{
    let mut count = 0;
    for found in members.values() {
        if !is_null(found) {
            count += 1;
        }
    }
    count
}

/// The member of that name, if it is there and not null; None also where the value is no object.
pub fn present_member<'a>(v: &'a Value, name: &str) -> Option<&'a Value>
    ensures { option_map (λ m. view m.now) result ≡ present (get name.now (view v.now)) }
{
    match v.get(name) {
        Some(found) => if is_null(found) { None } else { Some(found) },
        None => None,
    }
}
