//! References to pattern sets.

ghost use Rattle.serde_json.specs.View.{view};
ghost use Rattle.serde_json.specs.Written.{compact_text, has_float};
ghost use Rattle.statement_json.specs.Matches.{evaluated_reference as evaluated_in, is_outside as is_outside_set, keyed_reference, opaque_reference as opaque_in, pattern_set_of, pattern_set_on as pattern_set_in, whole_text as whole_text_of};
ghost use Rattle.std.specs.Prelude.{◌≡◌, IfOk, Some, false, option_map};
ghost use Rattle.waf_model.specs.Gives.{Gives};
ghost use Rattle.waf_model.specs.References.{patterns_of};
ghost use Rattle.waf_model.specs.declared.read_fault.ReadFault.TheVariants as read_faults;

use crate::field::field;
use crate::matching::arn;
use crate::pairing::beside;
use crate::target::{Target, cost_of, target_of};
use crate::transforms::transforms;
use json_view::copy_of;
use key_text::{holds_float, patterns_key, statement_key};
use serde_json::Value;
use std::alloc::Global;
use waf_model::{Memory, ReadFault, RegexSet, Statement, Text};

// What it costs in web ACL capacity units, before its field and transformations.
const PATTERN_SET_BASE: u64 = 25;

// A reference to one of these pattern sets.
#[tactic(auto, unfolding(crate::specs::Matches::pattern_set_of))]
pub(crate) fn pattern_set(
    alloc: Global,
    sets: &[RegexSet],
    statement: &Value,
    found: &Value,
    path: &Text,
    at: &Text,
) -> Result<Statement, ReadFault>
    ensures { Gives read_faults.Memory (λ statement. statement) result (pattern_set_of sets.now (view statement.now) (view found.now) path.now at.now) }
{
    let arn = arn(alloc, found, at)?;
    let tested = beside(arn, field(alloc, found, at))?;
    let ((arn, field), listed) = beside(tested, transforms(alloc, found, at))?;
    let cost = cost_of(PATTERN_SET_BASE, &field, &listed);
    let target = target_of(alloc, field, &listed)?;
    let set = set_of(sets, &arn);
    pattern_set_on(alloc, target, set, arn, statement, cost, path)
}

// The first set of that ARN.
fn set_of<'a>(sets: &'a [RegexSet], arn: &Text) -> Option<&'a RegexSet>
    ensures { option_map (λ set. set.now) result ≡ patterns_of sets.now arn.now }
{
    sets.iter().find(|set| set.arn.bytes() == arn.bytes())
}

// A set with a text outside the subset makes each statement that refers to it an answer.
fn pattern_set_on(
    alloc: Global,
    target: Option<Target>,
    set: Option<&RegexSet>,
    arn: Text,
    statement: &Value,
    cost: u64,
    path: &Text,
) -> Result<Statement, ReadFault>
    ensures { Gives read_faults.Memory (λ statement. statement) result (pattern_set_in target (option_map (λ set. set.now) set.entry) arn (view statement.now) cost path.now) }
{
    let Some(target) = target else {
        return opaque_reference(alloc, set, arn, statement, cost, path);
    };
    if is_outside(set) {
        opaque_reference(alloc, set, arn, statement, cost, path)
    } else {
        evaluated_reference(alloc, target, arn, statement, path)
    }
}

fn is_outside(set: Option<&RegexSet>) -> bool
    ensures { result ≡ is_outside_set (option_map (λ set. set.now) set.entry) }
{
    match set {
        Some(set) => set.outside,
        None => false,
    }
}

// A reference that is an answer; the statement must not hold a number that isn't whole.
fn opaque_reference(
    alloc: Global,
    set: Option<&RegexSet>,
    arn: Text,
    statement: &Value,
    cost: u64,
    path: &Text,
) -> Result<Statement, ReadFault>
    ensures { Gives read_faults.Memory (λ statement. statement) result (opaque_in (option_map (λ set. set.now) set.entry) arn (view statement.now) cost path.now) }
{
    if holds_float(statement) {
        return Err(ReadFault::Number(copy_of(alloc, path)?));
    }
    let key = reference_key(alloc, set, statement)?;
    Ok(Statement::Opaque {
        key,
        cost: Some(cost),
        arn: Some(arn),
    })
}

// The key of a reference to that set. It fails only for want of memory.
fn reference_key(alloc: Global, set: Option<&RegexSet>, statement: &Value) -> Result<Text, Memory>
    ensures { IfOk result (λ key. has_float (view statement.now) ≡ false → key ≡ compact_text (keyed_reference (option_map (λ set. set.now) set.entry) (view statement.now))) }
{
    match set {
        Some(set) => patterns_key(alloc, set.texts.as_slice(), statement),
        None => statement_key(alloc, statement),
    }
}

// A reference that is evaluated.
fn evaluated_reference(
    alloc: Global,
    target: Target,
    arn: Text,
    statement: &Value,
    path: &Text,
) -> Result<Statement, ReadFault>
    ensures { Gives read_faults.Memory (λ statement. statement) result (evaluated_in target arn (view statement.now) path.now) }
{
    let source = whole_text(alloc, statement, path);
    let ((target, arn), source) = beside((target, arn), source)?;
    Ok(Statement::PatternSet {
        arn,
        field: target.field,
        transforms: target.transforms,
        source,
    })
}

// The compact JSON text of a statement, which must not hold a number that isn't whole.
fn whole_text(alloc: Global, statement: &Value, path: &Text) -> Result<Text, ReadFault>
    ensures { Gives read_faults.Memory (λ text. text) result (whole_text_of (view statement.now) path.now) }
{
    if holds_float(statement) {
        return Err(ReadFault::Number(copy_of(alloc, path)?));
    }
    Ok(statement_key(alloc, statement)?)
}
