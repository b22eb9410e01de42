//! Managed rule groups.

ghost use Rattle.serde_json.specs.View.{view};
ghost use Rattle.statement_json.specs.Statements.{most_statements, statement_within};
ghost use Rattle.statement_json.specs.Tops.{managed_at, managed_key_of, managed_name_at, managed_of as managed_in, part_levels};
ghost use Rattle.std.specs.Prelude.{◌≡◌, ◌≤◌, IfOk, option_map};
ghost use Rattle.waf_model.specs.Gives.{Gives};
ghost use Rattle.waf_model.specs.declared.read_fault.ReadFault.TheVariants as read_faults;

use crate::encoding::Encoding;
use crate::pairing::beside;
use crate::scope_down::scope_down;
use json_view::{copy_of, member, member_path, optional_text, text_member};
use key_text::{unscoped_holds_float, unscoped_key};
use serde_json::Value;
use std::alloc::Global;
use waf_model::{ManagedUse, Memory, ReadFault, RegexSet, Statement, Text};

/// Whose managed rule group it is.
#[derive(Drop)]
pub(crate) struct ManagedName {
    vendor: Text,
    name: Text,
    version: Option<Text>,
}

// A managed rule group, which counts nothing yet.
pub(crate) fn managed_use(
    alloc: Global,
    sets: &[RegexSet],
    encoding: Encoding,
    v: &Value,
    path: &Text,
    seen: &mut u32,
) -> Result<ManagedUse, ReadFault>
    requires few { seen.old ≤ most_statements }
    ensures few { seen.new ≤ most_statements }
    ensures grows { seen.old ≤ seen.new }
    ensures reading { Gives read_faults.Memory (λ managed. (managed, seen.new)) result (managed_at (statement_within part_levels sets.now encoding) (view v.now) path.now seen.old) }
{
    let found = member(alloc, v, "ManagedRuleGroupStatement", path)?;
    let at = member_path(alloc, path, "ManagedRuleGroupStatement")?;
    managed_of(alloc, sets, encoding, v, found, path, &at, seen)
}

// A managed rule group, by its value.
fn managed_of(
    alloc: Global,
    sets: &[RegexSet],
    encoding: Encoding,
    statement: &Value,
    found: &Value,
    path: &Text,
    at: &Text,
    seen: &mut u32,
) -> Result<ManagedUse, ReadFault>
    requires few { seen.old ≤ most_statements }
    ensures few { seen.new ≤ most_statements }
    ensures grows { seen.old ≤ seen.new }
    ensures reading { Gives read_faults.Memory (λ managed. (managed, seen.new)) result (managed_in (statement_within part_levels sets.now encoding) (view statement.now) seen.old (view found.now) path.now at.now) }
{
    let named = managed_name(alloc, found, at)?;
    let below = beside(named, scope_down(alloc, sets, encoding, found, at, seen))?;
    let ((named, scope_down), key) = beside(below, key(alloc, statement, found, path))?;
    Ok(ManagedUse {
        key,
        vendor: named.vendor,
        name: named.name,
        version: named.version,
        scope_down,
        count: false,
    })
}

// Whose managed rule group it is.
fn managed_name(alloc: Global, v: &Value, path: &Text) -> Result<ManagedName, ReadFault>
    ensures { Gives read_faults.Memory (λ named. named) result (managed_name_at (view v.now) path.now) }
{
    let vendor = Text::of(alloc, text_member(alloc, v, "VendorName", path)?.as_bytes())?;
    let name = Text::of(alloc, text_member(alloc, v, "Name", path)?.as_bytes())?;
    let version = copied(alloc, optional_text(alloc, v, "Version", path)?)?;
    Ok(ManagedName {
        vendor,
        name,
        version,
    })
}

// The key, which has no number that isn't whole.
fn key(alloc: Global, statement: &Value, found: &Value, path: &Text) -> Result<Text, ReadFault>
    ensures { Gives read_faults.Memory (λ key. key) result (managed_key_of (view statement.now) (view found.now) path.now) }
{
    if unscoped_holds_float("ManagedRuleGroupStatement", found, statement) {
        return Err(ReadFault::Number(copy_of(alloc, path)?));
    }
    Ok(unscoped_key(alloc, "ManagedRuleGroupStatement", found, statement)?)
}

fn copied(alloc: Global, text: Option<&str>) -> Result<Option<Text>, Memory>
    ensures { IfOk result (λ copy. copy ≡ option_map (λ text. text.now) text.entry) }
{
    match text {
        Some(text) => Ok(Some(Text::of(alloc, text.as_bytes())?)),
        None => Ok(None),
    }
}
