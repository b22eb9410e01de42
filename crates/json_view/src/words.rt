//! Members that must be texts, whole numbers or lists, with the faults that all tables share.

ghost use Rattle.json_view.specs.Words.{ensured as goes_on, is_there as there_in, label_at, limited, list_member_at, name_at, object_at, optional_list_at, optional_text_at, text_member_at, whole_member_at};
ghost use Rattle.serde_json.specs.View.{view};
ghost use Rattle.std.specs.Prelude.{◌≡◌, ◌≤◌, IfOk, count_by, map, option_map};
ghost use Rattle.waf_model.specs.Gives.{Gives};
ghost use Rattle.waf_model.specs.declared.read_fault.ReadFault.TheVariants as read_faults;

use crate::letters::{is_label, is_name};
use crate::members::{is_object, is_there, list, member, optional};
use crate::path::{copy_of, index_path, member_path};
use crate::scalar::{text, whole};
use serde_json::Value;
use std::alloc::Global;
use waf_model::{ReadFault, Text};

/// Goes on where it is so, and else gives the fault.
pub fn ensured(holds: bool, fault: ReadFault) -> Result<(), ReadFault>
    ensures { result ≡ goes_on holds fault }
{
    if holds { Ok(()) } else { Err(fault) }
}

/// Goes on where the value is an object; Shape at the path where it is none.
pub fn object(alloc: Global, v: &Value, path: &Text) -> Result<(), ReadFault>
    ensures { Gives read_faults.Memory (λ nothing. nothing) result (object_at (view v.now) path.now) }
{
    if is_object(v) {
        Ok(())
    } else {
        Err(ReadFault::Shape(copy_of(alloc, path)?))
    }
}

/// How many members of these names are there; null counts as absent.
pub fn named_count(v: &Value, names: &[&str]) -> usize
    ensures { result ≡ count_by (λ name. there_in name.now (view v.now)) names.now }
{
    names.iter().filter(|name| is_there(v, **name)).count()
}

/// The text of the member of that name; Shape at the path or at the member's path.
pub fn text_member<'a>(
    alloc: Global,
    v: &'a Value,
    name: &str,
    path: &Text,
) -> Result<&'a str, ReadFault>
    ensures { Gives read_faults.Memory (λ found. found.now) result (text_member_at (view v.now) name.now path.now) }
{
    let found = member(alloc, v, name, path)?;
    match found.as_str() {
        Some(found) => Ok(found),
        None => Err(ReadFault::Shape(member_path(alloc, path, name)?)),
    }
}

/// The text of the member of that name, or None where it is absent or null; Shape at the path or at the member's path.
pub fn optional_text<'a>(
    alloc: Global,
    v: &'a Value,
    name: &str,
    path: &Text,
) -> Result<Option<&'a str>, ReadFault>
    ensures { Gives read_faults.Memory (λ found. option_map (λ text. text.now) found) result (optional_text_at (view v.now) name.now path.now) }
{
    match optional(alloc, v, name, path)? {
        None => Ok(None),
        Some(found) => match found.as_str() {
            Some(found) => Ok(Some(found)),
            None => Err(ReadFault::Shape(member_path(alloc, path, name)?)),
        },
    }
}

/// The whole number that the member of that name is: Shape at the path or at the member's path, and Number at the
/// member's path where it isn't whole, or not between the two, which are in the range.
pub fn whole_member(
    alloc: Global,
    v: &Value,
    name: &str,
    path: &Text,
    least: u64,
    most: u64,
) -> Result<u64, ReadFault>
    ensures value { Gives read_faults.Memory (λ found. found) result (whole_member_at (view v.now) name.now least most path.now) }
    ensures within { IfOk result (λ found. (least ≤ found) × (found ≤ most)) }
{
    let found = member(alloc, v, name, path)?;
    let at = member_path(alloc, path, name)?;
    Ok(whole(alloc, found, &at, least, most)?)
}

/// The elements of the member of that name; Shape at the path or at the member's path.
pub fn list_member<'a>(
    alloc: Global,
    v: &'a Value,
    name: &str,
    path: &Text,
) -> Result<&'a [Value], ReadFault>
    ensures { Gives read_faults.Memory (λ found. map view found.now) result (list_member_at (view v.now) name.now path.now) }
{
    let found = member(alloc, v, name, path)?;
    let at = member_path(alloc, path, name)?;
    Ok(list(alloc, found, &at)?)
}

/// The elements of the member of that name, none where it is absent or null; Shape at the path or at the member's path.
pub fn optional_list<'a>(
    alloc: Global,
    v: &'a Value,
    name: &str,
    path: &Text,
) -> Result<&'a [Value], ReadFault>
    ensures { Gives read_faults.Memory (λ found. map view found.now) result (optional_list_at (view v.now) name.now path.now) }
{
    match optional(alloc, v, name, path)? {
        None => Ok(&[]),
        Some(found) => Ok(list(alloc, found, &member_path(alloc, path, name)?)?),
    }
}

/// Goes on where the list has at most so many elements; Limit at the path, with that number, where it has more.
pub fn within_limit(alloc: Global, all: &[Value], most: u32, path: &Text) -> Result<(), ReadFault>
    ensures { Gives read_faults.Memory (λ nothing. map view all.now) result (limited most (map view all.now) path.now) }
{
    if all.len() > most as usize {
        return Err(ReadFault::Limit(copy_of(alloc, path)?, most));
    }
    Ok(())
}

/// The text of the member of that name, which must be a label: Shape at the path or at the member's path, and Name at
/// the member's path where it is no label.
pub fn label_member<'a>(
    alloc: Global,
    v: &'a Value,
    name: &str,
    path: &Text,
) -> Result<&'a str, ReadFault>
    ensures { Gives read_faults.Memory (λ found. found.now) result (label_at (view v.now) name.now path.now) }
{
    let found = text_member(alloc, v, name, path)?;
    if is_label(found.as_bytes()) {
        Ok(found)
    } else {
        Err(ReadFault::Name(member_path(alloc, path, name)?))
    }
}

/// The name that the member `Name` is: Shape at the path or at the member's path, and Name at the member's path where
/// it is no name.
pub fn name_member<'a>(alloc: Global, v: &'a Value, path: &Text) -> Result<&'a str, ReadFault>
    ensures { Gives read_faults.Memory (λ found. found.now) result (name_at (view v.now) path.now) }
{
    let found = text_member(alloc, v, "Name", path)?;
    if is_name(found.as_bytes()) {
        Ok(found)
    } else {
        Err(ReadFault::Name(member_path(alloc, path, "Name")?))
    }
}
