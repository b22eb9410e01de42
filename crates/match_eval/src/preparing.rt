//! How a statement is prepared.

ghost use Rattle.match_eval.specs.Asked.{test_of};
ghost use Rattle.match_eval.specs.Ready.{condition_of};
ghost use Rattle.match_eval.specs.Sets.{AreSetsOf};
ghost use Rattle.std.specs.Prelude.{◌≡◌, [], ◌∷◌, IfOk, map, option_map};
ghost use Rattle.waf_model.specs.Holds.{answered, condition, opposite, scoped as scoped_down, tested as tested_by};
ghost use Rattle.waf_model.specs.Passes as passes;
ghost use Rattle.waf_model.specs.declared.bundle.Bundle.{Bundle};

use crate::pattern_search::PatternSearch;
use crate::prepared::Prepared;
use crate::sets::Sets;
use crate::text_test::Asked;
use std::alloc::Global;
use waf_model::{Boxed, Field, Items, Memory, Pattern, Statement, Text, Transform};

/// The statement, prepared over the sets of its bundle. It fails only for want of memory.
#[cycle(prepare)]
pub(crate) fn prepare<'a>(
    alloc: Global,
    statement: &'a Statement,
    sets: &'a Sets<'a>,
) -> Result<Prepared<'a>, Memory>
    ensures { IfOk result (λ all. (bundle : Bundle) → AreSetsOf bundle sets.now → condition_of all ≡ condition bundle statement.now) }
{
    match statement {
        Statement::ByteMatch {
            search,
            field,
            transforms,
            position,
        } => {
            let asked = Asked::Search(*position, search.bytes());
            Ok(tested(asked, field, transforms))
        }
        Statement::Size {
            op,
            size,
            field,
            transforms,
        } => {
            let asked = Asked::Size(*op, *size);
            Ok(tested(asked, field, transforms))
        }
        Statement::Regex {
            pattern,
            field,
            transforms,
        } => searched(alloc, pattern, field, transforms),
        Statement::PatternSet {
            arn,
            field,
            transforms,
            ..
        } => {
            let asked = Asked::Patterns(sets.patterns(arn));
            Ok(tested(asked, field, transforms))
        }
        Statement::Ip { arn, forwarded } => Ok(Prepared::Addressed {
            cover: sets.ranges(arn),
            forwarded,
        }),
        Statement::Label { scope, key } => Ok(Prepared::Labelled { scope: *scope, key }),
        Statement::And(parts) => {
            let parts = all_prepared(alloc, parts.as_slice(), sets)?;
            Ok(Prepared::All(parts))
        }
        Statement::Or(parts) => {
            let parts = all_prepared(alloc, parts.as_slice(), sets)?;
            Ok(Prepared::Any(parts))
        }
        Statement::Not(part) => negated(alloc, part.get(), sets),
        Statement::Rate {
            key,
            scope_down,
            ..
        } => scoped(alloc, key, scope_down, sets),
        Statement::Opaque { key, .. } => Ok(Prepared::Answered(key)),
    }
}

/// The test of a field.
fn tested<'a>(asked: Asked<'a>, field: &'a Field, transforms: &'a Items<Transform>) -> Prepared<'a>
    ensures { condition_of result ≡ tested_by (test_of asked.entry) field.now transforms.now }
{
    Prepared::Tested {
        asked,
        field,
        transforms: transforms.as_slice(),
    }
}

/// The search for a pattern in a field. It fails only for want of memory.
fn searched<'a>(
    alloc: Global,
    pattern: &'a Pattern,
    field: &'a Field,
    transforms: &'a Items<Transform>,
) -> Result<Prepared<'a>, Memory>
    ensures { IfOk result (λ all. condition_of all ≡ tested_by (passes.patterns (pattern.now ∷ [])) field.now transforms.now) }
{
    let search = PatternSearch::of(alloc, pattern)?;
    Ok(tested(Asked::Pattern(search), field, transforms))
}

/// Each of the statements, prepared, in their order. It fails only for want of memory.
#[cycle(prepare)]
fn all_prepared<'a>(
    alloc: Global,
    parts: &'a [Statement],
    sets: &'a Sets<'a>,
) -> Result<Items<Prepared<'a>>, Memory>
    ensures { IfOk result (λ all. (bundle : Bundle) → AreSetsOf bundle sets.now → map condition_of all ≡ map (condition bundle) parts.now) }
{
    let mut all = Items::new(alloc);
    for part in parts {
        all.push(prepare(alloc, part, sets)?)?;
    }
    Ok(all)
}

/// The negation of the statement, prepared. It fails only for want of memory.
#[cycle(prepare)]
fn negated<'a>(
    alloc: Global,
    part: &'a Statement,
    sets: &'a Sets<'a>,
) -> Result<Prepared<'a>, Memory>
    ensures { IfOk result (λ all. (bundle : Bundle) → AreSetsOf bundle sets.now → condition_of all ≡ opposite (condition bundle part.now)) }
{
    let part = prepare(alloc, part, sets)?;
    Ok(Prepared::Not(Boxed::new(alloc, part)?))
}

/// The statement of that key, with what scopes it down, prepared. It fails only for want of memory.
#[cycle(prepare)]
fn scoped<'a>(
    alloc: Global,
    key: &'a Text,
    scope_down: &'a Option<Boxed<Statement>>,
    sets: &'a Sets<'a>,
) -> Result<Prepared<'a>, Memory>
    ensures { IfOk result (λ all. (bundle : Bundle) → AreSetsOf bundle sets.now → condition_of all ≡ scoped_down (option_map (condition bundle) scope_down.now) (answered key.now)) }
{
    match scope_down {
        None => Ok(Prepared::Answered(key)),
        Some(scope) => {
            let scope = prepare(alloc, scope.get(), sets)?;
            Ok(Prepared::Scoped(Boxed::new(alloc, scope)?, key))
        }
    }
}
