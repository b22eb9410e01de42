//! Rows of statements.

ghost use Rattle.std.specs.Prelude.{◌≤◌};
ghost use Rattle.statement_json.specs.Statements.{most_statements};

use crate::given::{MOST_STATEMENTS, json};
use crate::owner::{Owner, owner_at};
use crate::row_fault::{RowFault, alone, answered};
use crate::surroundings::{Surroundings, surroundings_of};
use crate::told::told_line;
use serde_json::Value;
use statement_json::{TopStatement, rule_statement, top_statement};
use std::alloc::Global;
use text_rows::Kind;
use waf_model::{Memory, ReadFault, Statement, Text};

const PATH: &[u8] = b"$.WebACL.Rules[0].Statement";

/// The kind of statements. Given are whose rule `r` has it (`web_acl`, or `group` for the group `g`), how search strings
/// stand, how many statements were read before, the statement, and a list of pattern sets, which may be left out. It comes
/// to how many statements were read then and what it is; or to its fault.
pub(crate) struct StatementRows;

// The statement of the rule `r` of a web ACL.
fn top_read(
    alloc: Global,
    around: &Surroundings,
    value: &Value,
    seen: &mut u32,
) -> Result<TopStatement, ReadFault>
    requires few { seen.old ≤ most_statements }
{
    let sets = around.sets.as_slice();
    let rule = Text::of(alloc, b"r")?;
    let path = Text::of(alloc, PATH)?;
    top_statement(alloc, sets, around.encoding, &rule, value, &path, seen)
}

// What is read in a rule of a web ACL.
fn of_web_acl(alloc: Global, around: &Surroundings, value: &Value) -> Result<Text, Memory> {
    let mut seen = around.seen.min(MOST_STATEMENTS);
    let read = top_read(alloc, around, value, &mut seen);
    told_line(alloc, read, Some(seen))
}

// The statement of the rule `r` of the group `g`.
fn statement_read(
    alloc: Global,
    around: &Surroundings,
    value: &Value,
    seen: &mut u32,
) -> Result<Statement, ReadFault>
    requires few { seen.old ≤ most_statements }
{
    let sets = around.sets.as_slice();
    let group = Text::of(alloc, b"g")?;
    let rule = Text::of(alloc, b"r")?;
    let path = Text::of(alloc, PATH)?;
    rule_statement(
        alloc,
        sets,
        around.encoding,
        &group,
        &rule,
        value,
        &path,
        seen,
    )
}

// What is read in a rule of a group.
fn of_group(alloc: Global, around: &Surroundings, value: &Value) -> Result<Text, Memory> {
    let mut seen = around.seen.min(MOST_STATEMENTS);
    let read = statement_read(alloc, around, value, &mut seen);
    told_line(alloc, read, Some(seen))
}

// What is read of a value in a rule of that owner.
fn of_owner(
    alloc: Global,
    owner: Owner,
    around: &Surroundings,
    value: &Value,
) -> Result<Text, Memory> {
    match owner {
        Owner::WebAcl => of_web_acl(alloc, around, value),
        Owner::Group => of_group(alloc, around, value),
    }
}

// What is read of the value that is given.
fn line_among(
    alloc: Global,
    owner: Owner,
    around: &Surroundings,
    given: &[Text],
) -> Result<Text, RowFault> {
    let value = json(alloc, given, 3)?;
    let line = of_owner(alloc, owner, around, &value)?;
    Ok(line)
}

// What is read, in one line.
fn line_of(alloc: Global, given: &[Text]) -> Result<Text, RowFault> {
    let owner = owner_at(given)?;
    let around = surroundings_of(alloc, given)?;
    line_among(alloc, owner, &around, given)
}

fn fields(alloc: Global, given: &[Text]) -> Result<Vec<Text>, RowFault> {
    alone(alloc, line_of(alloc, given)?)
}

impl Kind for StatementRows {
    fn answer(&self, alloc: Global, given: &[Text]) -> Result<Vec<Text>, Memory> {
        answered(alloc, fields(alloc, given))
    }
}
