//! Statements that are part of others.

ghost use Rattle.serde_json.specs.View.{view};
ghost use Rattle.statement_json.specs.Statements.{leaf as leaf_in, located as located_in, most_statements, of_inner_kind as of_inner_kind_in, of_kind as of_kind_in, opened as opened_in, part_at, parts_at, parts_from, statement_within};
ghost use Rattle.std.specs.Prelude.{◌≡◌, ◌≤◌, map, ◌<◌, OnOk};
ghost use Rattle.waf_model.specs.Gives.{Gives};
ghost use Rattle.waf_model.specs.declared.read_fault.ReadFault.TheVariants as read_faults;

use crate::detectors::{cross_site, sql_injection};
use crate::encoding::Encoding;
use crate::matching::{byte_match, regex_match, size_constraint};
use crate::opaque::opaque;
use crate::pattern_sets::pattern_set;
use crate::references::{ip_set, label_match};
use crate::statement_kind::{StatementKind, kind_of};
use json_view::{
    copy_of, ensured, index_path, list_member, member, member_count, member_path, object,
};
use serde_json::Value;
use std::alloc::Global;
use waf_model::{Boxed, Items, ReadFault, RegexSet, Statement, Text};

// A bundle has at most so many statements.
const MOST_STATEMENTS: u32 = 20_000;

// A statement is an object with exactly one member, and not the one that is too many; then it counts.
pub(crate) fn opened(alloc: Global, v: &Value, path: &Text, seen: &mut u32) -> Result<(), ReadFault>
    requires few { seen.old ≤ most_statements }
    ensures few { seen.new ≤ most_statements }
    ensures grows { seen.old ≤ seen.new }
    ensures counts { OnOk result (seen.old < seen.new) }
    ensures reading { Gives read_faults.Memory (λ nothing. seen.new) result (opened_in (view v.now) path.now seen.old) }
{
    object(alloc, v, path)?;
    if member_count(v) != 1 {
        return Err(ReadFault::OneStatement(copy_of(alloc, path)?));
    }
    if *seen >= MOST_STATEMENTS {
        return Err(ReadFault::Limit(copy_of(alloc, path)?, MOST_STATEMENTS));
    }
    *seen += 1;
    Ok(())
}

// A question whose value is an object that is unread.
fn located(
    alloc: Global,
    statement: &Value,
    found: &Value,
    path: &Text,
    at: &Text,
) -> Result<Statement, ReadFault>
    ensures { Gives read_faults.Memory (λ statement. statement) result (located_in (view statement.now) (view found.now) path.now at.now) }
{
    object(alloc, found, at)?;
    let statement = opaque(alloc, statement, Some(1), None, path)?;
    Ok(statement)
}

// A statement that is made of no others.
fn leaf(
    alloc: Global,
    sets: &[RegexSet],
    encoding: Encoding,
    kind: StatementKind,
    statement: &Value,
    found: &Value,
    path: &Text,
    at: &Text,
) -> Result<Statement, ReadFault>
    ensures { Gives read_faults.Memory (λ statement. statement) result (leaf_in sets.now encoding kind (view statement.now) (view found.now) path.now at.now) }
{
    match kind {
        StatementKind::ByteMatch => byte_match(alloc, encoding, statement, found, path, at),
        StatementKind::SizeConstraint => size_constraint(alloc, statement, found, path, at),
        StatementKind::RegexMatch => regex_match(alloc, statement, found, path, at),
        StatementKind::RegexPatternSetReference => {
            pattern_set(alloc, sets, statement, found, path, at)
        }
        StatementKind::IpSetReference => ip_set(alloc, found, at),
        StatementKind::LabelMatch => label_match(alloc, found, at),
        StatementKind::SqliMatch => sql_injection(alloc, statement, found, path, at),
        StatementKind::XssMatch => cross_site(alloc, statement, found, path, at),
        StatementKind::GeoMatch => located(alloc, statement, found, path, at),
        StatementKind::AsnMatch => located(alloc, statement, found, path, at),
        _ => Err(ReadFault::Nested(copy_of(alloc, path)?)),
    }
}

/// A statement that is part of another, with so many levels of statements at most.
#[cycle(statements)]
#[tactic(auto, using(crate::proofs::Levels::no_level, crate::proofs::Levels::one_level))]
pub(crate) fn statement(
    alloc: Global,
    levels: u32,
    sets: &[RegexSet],
    encoding: Encoding,
    v: &Value,
    path: &Text,
    seen: &mut u32,
) -> Result<Statement, ReadFault>
    requires few { seen.old ≤ most_statements }
    ensures few { seen.new ≤ most_statements }
    ensures grows { seen.old ≤ seen.new }
    ensures reading { Gives read_faults.Memory (λ statement. (statement, seen.new)) result (statement_within levels sets.now encoding (view v.now) path.now seen.old) }
{
    if levels == 0 {
        return Err(ReadFault::Shape(copy_of(alloc, path)?));
    }
    opened(alloc, v, path, seen)?;
    match kind_of(v) {
        Some(kind) => of_inner_kind(alloc, levels - 1, sets, encoding, kind, v, path, seen),
        None => opaque(alloc, v, None, None, path),
    }
}

/// A statement of a kind that stands not only at the top of a rule; its parts have so many levels of statements at most.
#[cycle(statements)]
pub(crate) fn of_inner_kind(
    alloc: Global,
    levels: u32,
    sets: &[RegexSet],
    encoding: Encoding,
    kind: StatementKind,
    v: &Value,
    path: &Text,
    seen: &mut u32,
) -> Result<Statement, ReadFault>
    requires few { seen.old ≤ most_statements }
    ensures few { seen.new ≤ most_statements }
    ensures grows { seen.old ≤ seen.new }
    ensures reading { Gives read_faults.Memory (λ statement. (statement, seen.new)) result (of_inner_kind_in (statement_within levels sets.now encoding) sets.now encoding kind (view v.now) path.now seen.old) }
{
    if kind.is_top() {
        return Err(ReadFault::Nested(copy_of(alloc, path)?));
    }
    let found = member(alloc, v, kind.member(), path)?;
    let at = member_path(alloc, path, kind.member())?;
    of_kind(
        alloc, levels, sets, encoding, kind, v, found, path, &at, seen,
    )
}

// A statement of that kind.
#[cycle(statements)]
fn of_kind(
    alloc: Global,
    levels: u32,
    sets: &[RegexSet],
    encoding: Encoding,
    kind: StatementKind,
    statement: &Value,
    found: &Value,
    path: &Text,
    at: &Text,
    seen: &mut u32,
) -> Result<Statement, ReadFault>
    requires few { seen.old ≤ most_statements }
    ensures few { seen.new ≤ most_statements }
    ensures grows { seen.old ≤ seen.new }
    ensures reading { Gives read_faults.Memory (λ statement. (statement, seen.new)) result (of_kind_in (statement_within levels sets.now encoding) sets.now encoding kind (view statement.now) (view found.now) path.now at.now seen.old) }
{
    match kind {
        StatementKind::And => {
            let parts = parts(alloc, levels, sets, encoding, found, at, seen)?;
            Ok(Statement::And(parts))
        }
        StatementKind::Or => {
            let parts = parts(alloc, levels, sets, encoding, found, at, seen)?;
            Ok(Statement::Or(parts))
        }
        StatementKind::Not => {
            let part = part(alloc, levels, sets, encoding, found, at, seen)?;
            Ok(Statement::Not(Boxed::new(alloc, part)?))
        }
        _ => leaf(alloc, sets, encoding, kind, statement, found, path, at),
    }
}

// The one statement that a statement is made of.
#[cycle(statements)]
fn part(
    alloc: Global,
    levels: u32,
    sets: &[RegexSet],
    encoding: Encoding,
    v: &Value,
    path: &Text,
    seen: &mut u32,
) -> Result<Statement, ReadFault>
    requires few { seen.old ≤ most_statements }
    ensures few { seen.new ≤ most_statements }
    ensures grows { seen.old ≤ seen.new }
    ensures reading { Gives read_faults.Memory (λ statement. (statement, seen.new)) result (part_at (statement_within levels sets.now encoding) (view v.now) path.now seen.old) }
{
    let found = member(alloc, v, "Statement", path)?;
    let at = member_path(alloc, path, "Statement")?;
    statement(alloc, levels, sets, encoding, found, &at, seen)
}

// The statements that a statement is made of.
#[cycle(statements)]
fn parts(
    alloc: Global,
    levels: u32,
    sets: &[RegexSet],
    encoding: Encoding,
    v: &Value,
    path: &Text,
    seen: &mut u32,
) -> Result<Items<Statement>, ReadFault>
    requires few { seen.old ≤ most_statements }
    ensures few { seen.new ≤ most_statements }
    ensures grows { seen.old ≤ seen.new }
    ensures reading { Gives read_faults.Memory (λ parts. (parts, seen.new)) result (parts_at (statement_within levels sets.now encoding) (view v.now) path.now seen.old) }
{
    let all = list_member(alloc, v, "Statements", path)?;
    let at = member_path(alloc, path, "Statements")?;
    parts_of(alloc, levels, sets, encoding, all, &at, seen)
}

// The statements of a list.
#[cycle(statements)]
fn parts_of(
    alloc: Global,
    levels: u32,
    sets: &[RegexSet],
    encoding: Encoding,
    all: &[Value],
    path: &Text,
    seen: &mut u32,
) -> Result<Items<Statement>, ReadFault>
    requires few { seen.old ≤ most_statements }
    ensures few { seen.new ≤ most_statements }
    ensures grows { seen.old ≤ seen.new }
    ensures reading { Gives read_faults.Memory (λ parts. (parts, seen.new)) result (parts_from (statement_within levels sets.now encoding) 0 (map view all.now) path.now seen.old) }
{
    let mut parts = Items::new(alloc);
    let mut index: u64 = 0;
    for found in all {
        let at = index_path(alloc, path, index)?;
        let part = statement(alloc, levels, sets, encoding, found, &at, seen)?;
        parts.push(part)?;
        index += 1;
    }
    Ok(parts)
}
