//! Rows of JSON views.

use crate::fault_line::fault_line;
use crate::given::{bytes, json, number, word};
use crate::line::Line;
use crate::row_fault::{RowFault, alone, answered};
use json_view::{
    ViewFault, label_member, list, list_member, member, member_count, member_path, name_member,
    named_count, object, optional, optional_list, optional_text, parse, text, text_member, truth,
    whole, whole_member, within_limit,
};
use serde_json::Value;
use std::alloc::Global;
use std::fmt::Debug;
use text_rows::Kind;
use waf_model::{Memory, ReadFault, Text};

/// The kind of JSON views. Given are a JSON text, a call, and what else the call takes: the name of a member, and bounds.
pub(crate) struct ViewRows;

// A value by the names that the code gives it.
fn named_line<T: Debug>(alloc: Global, value: &T) -> Result<Text, Memory> {
    let mut line = Line::new(alloc);
    line.named(value)?;
    Ok(line.into_text())
}

// What a call gave, by the names that the code gives it, or its fault.
fn shown<T: Debug + Drop>(alloc: Global, read: Result<T, ReadFault>) -> Result<Text, RowFault> {
    let line = match &read {
        Ok(value) => named_line(alloc, value),
        Err(fault) => fault_line(alloc, fault),
    };
    Ok(line?)
}

// The same of a call whose faults are those of views.
fn seen<T: Debug + Drop>(alloc: Global, view: Result<T, ViewFault>) -> Result<Text, RowFault> {
    shown(alloc, view.map_err(ReadFault::from))
}

// What is seen of a value at that path.
fn of_value(alloc: Global, value: &Value, path: &Text, given: &[Text]) -> Result<Text, RowFault> {
    match word(given, 1)? {
        "object" => shown(alloc, object(alloc, value, path)),
        "list" => seen(alloc, list(alloc, value, path).map(|found| found.len())),
        "text" => seen(alloc, text(alloc, value, path)),
        "truth" => seen(alloc, truth(alloc, value, path)),
        "whole" => {
            let least = u64::from(number(given, 3)?);
            let most = u64::from(number(given, 4)?);
            seen(alloc, whole(alloc, value, path, least, most))
        }
        "member_count" => shown(alloc, Ok(member_count(value))),
        _ => Err(RowFault::Given),
    }
}

// What is seen of the member of that name, at the path behind that of the value.
fn of_member(
    alloc: Global,
    value: &Value,
    path: &Text,
    name: &str,
    given: &[Text],
) -> Result<Text, RowFault> {
    match member(alloc, value, name, path) {
        Ok(found) => of_value(alloc, found, &member_path(alloc, path, name)?, given),
        Err(fault) => seen::<bool>(alloc, Err(fault)),
    }
}

// The elements of the list of that name are at most so many.
fn limited(
    alloc: Global,
    value: &Value,
    path: &Text,
    name: &str,
    most: u32,
) -> Result<(), ReadFault> {
    let found = list_member(alloc, value, name, path)?;
    within_limit(alloc, found, most, path)
}

// What is read of the member of that name by one call.
fn member_read(
    alloc: Global,
    value: &Value,
    path: &Text,
    name: &str,
    given: &[Text],
) -> Result<Text, RowFault> {
    match word(given, 1)? {
        "optional" => seen(
            alloc,
            optional(alloc, value, name, path).map(|found| found.is_some()),
        ),
        "text_member" => shown(alloc, text_member(alloc, value, name, path)),
        "label_member" => shown(alloc, label_member(alloc, value, name, path)),
        "optional_text" => shown(alloc, optional_text(alloc, value, name, path)),
        "list_member" => shown(
            alloc,
            list_member(alloc, value, name, path).map(|l| l.len()),
        ),
        "optional_list" => shown(
            alloc,
            optional_list(alloc, value, name, path).map(|l| l.len()),
        ),
        "within_limit" => {
            let most = number(given, 3)?;
            shown(alloc, limited(alloc, value, path, name, most))
        }
        "whole_member" => {
            let least = u64::from(number(given, 3)?);
            let most = u64::from(number(given, 4)?);
            shown(alloc, whole_member(alloc, value, name, path, least, most))
        }
        _ => of_member(alloc, value, path, name, given),
    }
}

// How many of the names behind the call are members.
fn counted(alloc: Global, value: &Value, given: &[Text]) -> Result<Text, RowFault> {
    let mut names = Vec::new(alloc);
    for place in 2..given.len() {
        names.push(word(given, place)?)?;
    }
    shown(alloc, Ok(named_count(value, names.as_slice())))
}

// What the call gives of the value.
fn called_on(alloc: Global, call: &str, value: &Value, given: &[Text]) -> Result<Text, RowFault> {
    let path = Text::of(alloc, b"$")?;
    match call {
        "name_member" => shown(alloc, name_member(alloc, value, &path)),
        "named_count" => counted(alloc, value, given),
        _ if given.len() == 2 => of_value(alloc, value, &path, given),
        _ => member_read(alloc, value, &path, word(given, 2)?, given),
    }
}

// Whether the bytes are a JSON text.
fn parsed(alloc: Global, text: &[u8]) -> Result<Text, RowFault> {
    let read = parse(alloc, text)?;
    shown(alloc, Ok(read.is_some()))
}

// What the call gives.
fn called(alloc: Global, given: &[Text]) -> Result<Text, RowFault> {
    let call = word(given, 1)?;
    if call == "parse" {
        return parsed(alloc, bytes(given, 0)?);
    }
    let value = json(alloc, given, 0)?;
    called_on(alloc, call, &value, given)
}

fn fields(alloc: Global, given: &[Text]) -> Result<Vec<Text>, RowFault> {
    alone(alloc, called(alloc, given)?)
}

impl Kind for ViewRows {
    fn answer(&self, alloc: Global, given: &[Text]) -> Result<Vec<Text>, Memory> {
        answered(alloc, fields(alloc, given))
    }
}
