//! Rate-based statements.

ghost use Rattle.serde_json.specs.View.{view};
ghost use Rattle.statement_json.specs.Statements.{most_statements, statement_within};
ghost use Rattle.statement_json.specs.Tops.{custom_keys_at, part_levels, rate_at, rate_key_of, rate_of as rate_in, rate_parts_at};
ghost use Rattle.std.specs.Prelude.{◌≡◌, ◌≤◌, IfOk, option_map};
ghost use Rattle.waf_model.specs.Gives.{Gives};
ghost use Rattle.waf_model.specs.declared.read_fault.ReadFault.TheVariants as read_faults;

use crate::encoding::Encoding;
use crate::scope_down::scope_down;
use json_view::{copy_of, member, member_path, optional_list};
use key_text::{rate_key, unscoped_holds_float};
use serde_json::Value;
use std::alloc::Global;
use waf_model::{Boxed, Memory, ReadFault, RegexSet, Statement, Text};

/// What a rate-based statement has besides its key.
#[derive(Drop)]
pub(crate) struct RateParts {
    custom_keys: u32,
    scope_down: Option<Boxed<Statement>>,
}

// The rate-based statement of that rule of that group.
pub(crate) fn rate(
    alloc: Global,
    sets: &[RegexSet],
    encoding: Encoding,
    group: &Text,
    rule: &Text,
    v: &Value,
    path: &Text,
    seen: &mut u32,
) -> Result<Statement, ReadFault>
    requires few { seen.old ≤ most_statements }
    ensures few { seen.new ≤ most_statements }
    ensures grows { seen.old ≤ seen.new }
    ensures reading { Gives read_faults.Memory (λ statement. (statement, seen.new)) result (rate_at (statement_within part_levels sets.now encoding) group.now rule.now (view v.now) path.now seen.old) }
{
    let found = member(alloc, v, "RateBasedStatement", path)?;
    let at = member_path(alloc, path, "RateBasedStatement")?;
    rate_of(
        alloc, sets, encoding, group, rule, v, found, path, &at, seen,
    )
}

// The rate-based statement, by its value.
fn rate_of(
    alloc: Global,
    sets: &[RegexSet],
    encoding: Encoding,
    group: &Text,
    rule: &Text,
    statement: &Value,
    found: &Value,
    path: &Text,
    at: &Text,
    seen: &mut u32,
) -> Result<Statement, ReadFault>
    requires few { seen.old ≤ most_statements }
    ensures few { seen.new ≤ most_statements }
    ensures grows { seen.old ≤ seen.new }
    ensures reading { Gives read_faults.Memory (λ statement. (statement, seen.new)) result (rate_in (statement_within part_levels sets.now encoding) group.now rule.now (view statement.now) seen.old (view found.now) path.now at.now) }
{
    let parts = rate_parts(alloc, sets, encoding, found, at, seen)?;
    let key = key(alloc, group, rule, statement, found, path)?;
    Ok(Statement::Rate {
        key,
        custom_keys: parts.custom_keys,
        scope_down: parts.scope_down,
    })
}

// What the statement has besides its key.
fn rate_parts(
    alloc: Global,
    sets: &[RegexSet],
    encoding: Encoding,
    v: &Value,
    path: &Text,
    seen: &mut u32,
) -> Result<RateParts, ReadFault>
    requires few { seen.old ≤ most_statements }
    ensures few { seen.new ≤ most_statements }
    ensures grows { seen.old ≤ seen.new }
    ensures reading { Gives read_faults.Memory (λ parts. (parts, seen.new)) result (rate_parts_at (statement_within part_levels sets.now encoding) (view v.now) path.now seen.old) }
{
    let custom_keys = custom_keys(alloc, v, path)?;
    let scope_down = scope_down(alloc, sets, encoding, v, path, seen)?;
    let scope_down = boxed(alloc, scope_down)?;
    Ok(RateParts {
        custom_keys,
        scope_down,
    })
}

// The key, which has no number that isn't whole.
fn key(
    alloc: Global,
    group: &Text,
    rule: &Text,
    statement: &Value,
    found: &Value,
    path: &Text,
) -> Result<Text, ReadFault>
    ensures { Gives read_faults.Memory (λ key. key) result (rate_key_of group.now rule.now (view statement.now) (view found.now) path.now) }
{
    if unscoped_holds_float("RateBasedStatement", found, statement) {
        return Err(ReadFault::Number(copy_of(alloc, path)?));
    }
    Ok(rate_key(alloc, group, rule, found, statement)?)
}

fn boxed(alloc: Global, part: Option<Statement>) -> Result<Option<Boxed<Statement>>, Memory>
    ensures { IfOk result (λ boxed. boxed ≡ part) }
{
    match part {
        Some(part) => Ok(Some(Boxed::new(alloc, part)?)),
        None => Ok(None),
    }
}

// The number of custom keys, or 2^32 - 1 where there are more.
fn custom_keys(alloc: Global, v: &Value, path: &Text) -> Result<u32, ReadFault>
    ensures { Gives read_faults.Memory (λ number. number) result (custom_keys_at (view v.now) path.now) }
{
    let all = optional_list(alloc, v, "CustomKeys", path)?;
    Ok(all.len().min(u32::MAX as usize) as u32)
}
