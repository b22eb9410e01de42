//! Rows of web ACLs and rule groups.

ghost use Rattle.std.specs.Prelude.{◌≤◌};
ghost use Rattle.statement_json.specs.Statements.{most_statements};

use crate::given::{MOST_STATEMENTS, bytes, json, word};
use crate::owner::{Owner, owner_at};
use crate::row_fault::{RowFault, alone, answered};
use crate::surroundings::{Surroundings, surroundings_of};
use crate::told::told_line;
use acl_json::{acl_among, acl_of, group_among, group_of, read_acl};
use serde_json::Value;
use std::alloc::Global;
use text_rows::Kind;
use waf_model::{Acl, Group, Memory, ReadFault, Text};

/// The kind of web ACLs and rule groups. Given are `bundle` and a bundle's bytes; or what is read (`web_acl` or `group`),
/// how search strings stand, how many statements were read before, the object, and a list of pattern sets, which may be
/// left out. It comes to how many statements were read then, which isn't told of a bundle, and what it is; or to its fault.
pub(crate) struct AclRows;

// The web ACL at `$.WebACL`, among pattern sets where they are given.
fn acl_read(
    alloc: Global,
    around: &Surroundings,
    value: &Value,
    seen: &mut u32,
) -> Result<Acl, ReadFault>
    requires few { seen.old ≤ most_statements }
{
    let path = Text::of(alloc, b"$.WebACL")?;
    if around.has_sets {
        let sets = around.sets.as_slice();
        return acl_among(alloc, value, &path, sets, around.encoding, seen);
    }
    acl_of(alloc, value, &path, around.encoding, seen)
}

// What is read of a web ACL.
fn of_acl(alloc: Global, around: &Surroundings, value: &Value) -> Result<Text, Memory> {
    let mut seen = around.seen.min(MOST_STATEMENTS);
    let read = acl_read(alloc, around, value, &mut seen);
    told_line(alloc, read, Some(seen))
}

// The rule group at `$.RuleGroups[0]`, among pattern sets where they are given.
fn group_read(
    alloc: Global,
    around: &Surroundings,
    value: &Value,
    seen: &mut u32,
) -> Result<Group, ReadFault>
    requires few { seen.old ≤ most_statements }
{
    let path = Text::of(alloc, b"$.RuleGroups[0]")?;
    if around.has_sets {
        let sets = around.sets.as_slice();
        return group_among(alloc, value, &path, sets, around.encoding, seen);
    }
    group_of(alloc, value, &path, around.encoding, seen)
}

// What is read of a rule group.
fn of_group(alloc: Global, around: &Surroundings, value: &Value) -> Result<Text, Memory> {
    let mut seen = around.seen.min(MOST_STATEMENTS);
    let read = group_read(alloc, around, value, &mut seen);
    told_line(alloc, read, Some(seen))
}

// What is read of the value.
fn of_owner(
    alloc: Global,
    owner: Owner,
    around: &Surroundings,
    value: &Value,
) -> Result<Text, Memory> {
    match owner {
        Owner::WebAcl => of_acl(alloc, around, value),
        Owner::Group => of_group(alloc, around, value),
    }
}

// What is read of the value that is given.
fn line_among(
    alloc: Global,
    owner: Owner,
    around: &Surroundings,
    given: &[Text],
) -> Result<Text, RowFault> {
    let value = json(alloc, given, 3)?;
    let line = of_owner(alloc, owner, around, &value)?;
    Ok(line)
}

// What is read, in one line.
fn line_of(alloc: Global, given: &[Text]) -> Result<Text, RowFault> {
    let owner = owner_at(given)?;
    let around = surroundings_of(alloc, given)?;
    line_among(alloc, owner, &around, given)
}

// The web ACL of the bundle that is given, or what else is read.
fn answer_line(alloc: Global, given: &[Text]) -> Result<Text, RowFault> {
    if word(given, 0)? != "bundle" {
        return line_of(alloc, given);
    }
    let read = read_acl(alloc, bytes(given, 1)?);
    Ok(told_line(alloc, read, None)?)
}

fn fields(alloc: Global, given: &[Text]) -> Result<Vec<Text>, RowFault> {
    alone(alloc, answer_line(alloc, given)?)
}

impl Kind for AclRows {
    fn answer(&self, alloc: Global, given: &[Text]) -> Result<Vec<Text>, Memory> {
        answered(alloc, fields(alloc, given))
    }
}
