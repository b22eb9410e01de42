//! The capacities that rule groups and managed rule groups state.

ghost use Rattle.std.specs.Prelude.{◌≡◌};
ghost use Rattle.waf_model.specs.Cost.{group_capacity, fits_version, is_capacity_of, managed_capacity};

use waf_model::{Group, ManagedCapacity, ManagedUse, Text};

/// The capacity of the first group with that ARN.
pub(crate) fn capacity_of_group(groups: &[Group], arn: &Text) -> Option<u32>
    ensures { result ≡ group_capacity groups.now arn.now }
{
    let group = groups
        .iter()
        .find(|group| group.arn.bytes() == arn.bytes())?;
    Some(group.capacity)
}

/// Whether a stated version is that which is used, or none is stated.
fn fits(stated: &Option<Text>, used: &Option<Text>) -> bool
    ensures { result ≡ fits_version stated.now used.now }
{
    match (stated, used) {
        (None, _) => true,
        (Some(_), None) => false,
        (Some(stated), Some(used)) => stated.bytes() == used.bytes(),
    }
}

/// Whether the stated capacity is that of the managed rule group.
fn is_of(capacity: &ManagedCapacity, managed: &ManagedUse) -> bool
    ensures { result ≡ is_capacity_of managed.now capacity.now }
{
    capacity.vendor.bytes() == managed.vendor.bytes()
        && capacity.name.bytes() == managed.name.bytes()
        && fits(&capacity.version, &managed.version)
}

/// The first stated capacity of the managed rule group.
pub(crate) fn capacity_of_managed(stated: &[ManagedCapacity], managed: &ManagedUse) -> Option<u32>
    ensures { result ≡ managed_capacity stated.now managed.now }
{
    let capacity = stated.iter().find(|capacity| is_of(capacity, managed))?;
    Some(capacity.capacity)
}
