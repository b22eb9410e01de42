//! What a rate-based statement or a managed rule group is scoped down to.

ghost use Rattle.serde_json.specs.View.{view};
ghost use Rattle.statement_json.specs.Statements.{most_statements, statement_within};
ghost use Rattle.statement_json.specs.Tops.{optional_part as optional_part_in, part_levels, scope_down_at};
ghost use Rattle.std.specs.Prelude.{◌≡◌, ◌≤◌, option_map};
ghost use Rattle.waf_model.specs.Gives.{Gives};
ghost use Rattle.waf_model.specs.declared.read_fault.ReadFault.TheVariants as read_faults;

use crate::encoding::Encoding;
use crate::statement::statement;
use json_view::{member_path, optional};
use serde_json::Value;
use std::alloc::Global;
use waf_model::{ReadFault, RegexSet, Statement, Text};

/// The parts of a statement at the top of a rule have so many levels of statements at most.
pub(crate) const PART_LEVELS: u32 = 127;

// The scope-down statement, where there is one.
pub(crate) fn scope_down(
    alloc: Global,
    sets: &[RegexSet],
    encoding: Encoding,
    v: &Value,
    path: &Text,
    seen: &mut u32,
) -> Result<Option<Statement>, ReadFault>
    requires few { seen.old ≤ most_statements }
    ensures few { seen.new ≤ most_statements }
    ensures grows { seen.old ≤ seen.new }
    ensures reading { Gives read_faults.Memory (λ part. (part, seen.new)) result (scope_down_at (statement_within part_levels sets.now encoding) (view v.now) path.now seen.old) }
{
    let found = optional(alloc, v, "ScopeDownStatement", path)?;
    let at = member_path(alloc, path, "ScopeDownStatement")?;
    optional_part(alloc, sets, encoding, found, &at, seen)
}

fn optional_part(
    alloc: Global,
    sets: &[RegexSet],
    encoding: Encoding,
    found: Option<&Value>,
    path: &Text,
    seen: &mut u32,
) -> Result<Option<Statement>, ReadFault>
    requires few { seen.old ≤ most_statements }
    ensures few { seen.new ≤ most_statements }
    ensures grows { seen.old ≤ seen.new }
    ensures reading { Gives read_faults.Memory (λ part. (part, seen.new)) result (optional_part_in (statement_within part_levels sets.now encoding) (option_map (λ v. view v.now) found.entry) path.now seen.old) }
{
    match found {
        None => Ok(None),
        Some(found) => {
            let part = statement(alloc, PART_LEVELS, sets, encoding, found, path, seen)?;
            Ok(Some(part))
        }
    }
}
