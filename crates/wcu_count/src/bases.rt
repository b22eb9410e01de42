//! The cost of a test on a field.

ghost use Rattle.std.specs.Prelude.{◌≡◌, ◌≤◌, if◌then◌else◌, count_by, length};
ghost use Rattle.waf_model.specs.Cost.{match_base, is_charged, is_all_arguments, ip_set_cost, test_cost};
ghost use Rattle.wcu_count.specs.Bounds.{IsWithin};

use crate::sums::known;
use waf_model::{Capacity, Field, Forwarded, ForwardedPosition, Position, Transform};

/// The base of a byte match.
pub(crate) fn base_of(position: Position) -> u64
    ensures base { result ≡ match_base position }
    ensures bound { result ≤ 25 }
{
    match position {
        Position::Exactly | Position::Starts | Position::Ends => 2,
        Position::Contains | Position::Word => 10,
    }
}

/// How many of the transformations are charged.
fn charged(transforms: &[Transform]) -> usize
    ensures { result ≡ count_by is_charged transforms.now }
{
    transforms
        .iter()
        .filter(|transform| !matches!(transform, Transform::KeepAll))
        .count()
}

/// What a field adds to a base.
fn extra_of(field: &Field) -> u64
    ensures { result ≡ (if is_all_arguments field.now then 10 else 0) }
{
    match field {
        Field::AllArguments => 10,
        _ => 0,
    }
}

/// The cost of a test of that base on the field, after the transformations.
pub(crate) fn cost_of_test(base: u64, field: &Field, transforms: &[Transform]) -> Capacity
    requires base { base ≤ 25 }
    requires transforms { length transforms.now ≤ 100 }
    ensures cost { result ≡ test_cost base field.now transforms.now }
    ensures bound { IsWithin result 1 }
{
    known(base + extra_of(field) + 10 * charged(transforms) as u64)
}

/// The cost of a reference to an IP set.
pub(crate) fn cost_of_ip_set(forwarded: &Option<Forwarded>) -> u64
    ensures cost { result ≡ ip_set_cost forwarded.now }
    ensures bound { result ≤ 5 }
{
    match forwarded {
        None => 1,
        Some(forwarded) => match forwarded.position {
            ForwardedPosition::First | ForwardedPosition::Last => 1,
            ForwardedPosition::Any => 5,
        },
    }
}
