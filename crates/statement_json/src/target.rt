//! What a test looks at, where all of it is evaluated, and what it costs.

ghost use Rattle.statement_json.specs.Matches.{cost_of as cost_by, cost_on as cost_for, target_of as target_in};
ghost use Rattle.statement_json.specs.Transforms.{most_transforms};
ghost use Rattle.std.specs.Prelude.{◌≡◌, ◌≤◌, IfOk, length};

use crate::field_kind::FieldKind;
use crate::listed::Listed;
use crate::transforms::{charged, in_order};
use std::alloc::Global;
use waf_model::{Field, Items, Memory, Transform};

/// The field of a test and its transformations, in the order of application.
#[derive(Drop)]
pub(crate) struct Target {
    pub(crate) field: Field,
    pub(crate) transforms: Items<Transform>,
}

// The field and the transformations in the order of application, or None where one of them isn't evaluated.
pub(crate) fn target_of(
    alloc: Global,
    field: FieldKind,
    listed: &[Listed],
) -> Result<Option<Target>, Memory>
    ensures { IfOk result (λ target. target ≡ target_in field listed.now) }
{
    let FieldKind::Known(field) = field else {
        return Ok(None);
    };
    match in_order(alloc, listed)? {
        Some(transforms) => Ok(Some(Target { field, transforms })),
        None => Ok(None),
    }
}

// What a test of that base costs on a field with these transformations, in web ACL capacity units.
pub(crate) fn cost_of(base: u64, field: &FieldKind, listed: &[Listed]) -> u64
    requires small { base ≤ 40 }
    requires few { length listed.now ≤ most_transforms }
    ensures { result ≡ cost_by base field.now listed.now }
{
    cost_on(base, field, charged(listed) as u64)
}

// What a test of that base costs on a field with so many transformations that are charged.
fn cost_on(base: u64, field: &FieldKind, charged: u64) -> u64
    requires small { base ≤ 40 }
    requires few { charged ≤ 100 }
    ensures { result ≡ cost_for base field.now charged }
{
    match field {
        FieldKind::Known(Field::AllArguments) => base + 10 + 10 * charged,
        FieldKind::JsonBody => 2 * base + 10 * charged,
        _ => base + 10 * charged,
    }
}
