//! Detectors of attacks, whose truth is always an answer.

ghost use Rattle.serde_json.specs.View.{view};
ghost use Rattle.statement_json.specs.Matches.{cost_of as cost_by, cross_site_of, is_high as is_high_in, sql_base_at, sql_injection_of};
ghost use Rattle.statement_json.specs.Transforms.{most_transforms};
ghost use Rattle.std.specs.Prelude.{◌≡◌, ◌≤◌, IfOk, length, option_map};
ghost use Rattle.waf_model.specs.Gives.{Gives};
ghost use Rattle.waf_model.specs.declared.read_fault.ReadFault.TheVariants as read_faults;

use crate::field::field;
use crate::field_kind::FieldKind;
use crate::listed::Listed;
use crate::opaque::opaque;
use crate::pairing::beside;
use crate::target::cost_of;
use crate::transforms::transforms;
use json_view::optional_text;
use serde_json::Value;
use std::alloc::Global;
use waf_model::{ReadFault, Statement, Text};

// What a test for SQL injection costs, and at the level HIGH.
const SQL_INJECTION_BASE: u64 = 20;

const HIGH_SQL_INJECTION_BASE: u64 = 30;

// What a test for cross-site scripting costs.
const CROSS_SITE_BASE: u64 = 40;

// A test for SQL injection.
#[tactic(auto, unfolding(crate::specs::Matches::sql_injection_of))]
pub(crate) fn sql_injection(
    alloc: Global,
    statement: &Value,
    found: &Value,
    path: &Text,
    at: &Text,
) -> Result<Statement, ReadFault>
    ensures { Gives read_faults.Memory (λ statement. statement) result (sql_injection_of (view statement.now) (view found.now) path.now at.now) }
{
    let field = field(alloc, found, at)?;
    let changed = beside(field, transforms(alloc, found, at))?;
    let ((field, listed), base) = beside(changed, sql_base(alloc, found, at))?;
    let cost = cost_on(base, field, listed);
    opaque(alloc, statement, Some(cost), None, path)
}

// What a test for SQL injection costs at its sensitivity level, before its field and transformations.
#[tactic(auto, unfolding(crate::specs::Matches::sql_base_at))]
fn sql_base(alloc: Global, v: &Value, path: &Text) -> Result<u64, ReadFault>
    ensures small { IfOk result (λ base. base ≤ 40) }
    ensures reading { Gives read_faults.Memory (λ base. base) result (sql_base_at (view v.now) path.now) }
{
    let level = optional_text(alloc, v, "SensitivityLevel", path)?;
    Ok(if is_high(level) {
        HIGH_SQL_INJECTION_BASE
    } else {
        SQL_INJECTION_BASE
    })
}

// What a test of that base costs on a field with these transformations, both of which it lets go.
fn cost_on(base: u64, field: FieldKind, listed: Vec<Listed>) -> u64
    requires small { base ≤ 40 }
    requires few { length listed.items ≤ most_transforms }
    ensures { result ≡ cost_by base field listed.items }
{
    cost_of(base, &field, &listed)
}

// Whether the sensitivity level is HIGH.
fn is_high(level: Option<&str>) -> bool
    ensures { result ≡ is_high_in (option_map (λ text. text.now) level.entry) }
{
    match level {
        Some(level) => level == "HIGH",
        None => false,
    }
}

// A test for cross-site scripting.
#[tactic(auto, unfolding(crate::specs::Matches::cross_site_of))]
pub(crate) fn cross_site(
    alloc: Global,
    statement: &Value,
    found: &Value,
    path: &Text,
    at: &Text,
) -> Result<Statement, ReadFault>
    ensures { Gives read_faults.Memory (λ statement. statement) result (cross_site_of (view statement.now) (view found.now) path.now at.now) }
{
    let field = field(alloc, found, at)?;
    let (field, listed) = beside(field, transforms(alloc, found, at))?;
    let cost = cost_on(CROSS_SITE_BASE, field, listed);
    opaque(alloc, statement, Some(cost), None, path)
}
