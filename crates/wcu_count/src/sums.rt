//! Costs by themselves, and their sum.

ghost use Rattle.std.specs.Prelude.{◌≡◌, ◌+◌, ◌^◌, ◌<◌};
ghost use Rattle.waf_model.specs.Cost.{units as units_of, units_if_known, plus as sum_of_two};

use waf_model::Capacity;

/// A cost of so many units.
pub(crate) fn known(units: u64) -> Capacity
    ensures { result ≡ units_of units }
{
    Capacity {
        known: units,
        unknown: 0,
    }
}

/// A cost of so many units, or one unknown.
pub(crate) fn known_or_not(units: Option<u64>) -> Capacity
    ensures { result ≡ units_if_known units }
{
    match units {
        Some(units) => known(units),
        None => Capacity {
            known: 0,
            unknown: 1,
        },
    }
}

/// Two costs together, of so few statements that the sum doesn't overflow.
pub(crate) fn plus(one: Capacity, other: Capacity) -> Capacity
    requires known { one.known + other.known < 2 ^ 64 }
    requires unknown { one.unknown + other.unknown < 2 ^ 32 }
    ensures { result ≡ sum_of_two one other }
{
    Capacity {
        known: one.known + other.known,
        unknown: one.unknown + other.unknown,
    }
}
