//! The lists of sets and of capacities.

ghost use Rattle.json_view.specs.Words.{each_from};
ghost use Rattle.serde_json.specs.View.{view};
ghost use Rattle.set_json.specs.Lists.{ip_set_at, ip_sets_at, managed_capacities_at, regex_set_at, regex_sets_at, unwrapped};
ghost use Rattle.set_json.specs.Sets.{ip_set_of, managed_capacity_of, regex_set_of};
ghost use Rattle.std.specs.Prelude.{◌≡◌, map, option_map};
ghost use Rattle.waf_model.specs.Gives.{Gives};
ghost use Rattle.waf_model.specs.declared.read_fault.ReadFault.TheVariants as read_faults;

use crate::ip_set::ip_set;
use crate::managed_capacity::managed_capacity;
use crate::regex_set::regex_set;
use crate::unwrapped::wrapped;
use json_view::{index_path, member_path, optional_list};
use serde_json::Value;
use std::alloc::Global;
use waf_model::{IpSet, Items, ManagedCapacity, ReadFault, RegexSet, Text};

/// The address sets of the bundle.
#[tactic(auto, unfolding(crate::specs::Lists::ip_sets_at))]
pub(crate) fn ip_sets(alloc: Global, v: &Value, path: &Text) -> Result<Items<IpSet>, ReadFault>
    ensures { Gives read_faults.Memory (λ sets. sets) result (ip_sets_at (view v.now) path.now) }
{
    let all = optional_list(alloc, v, "IPSets", path)?;
    let at = member_path(alloc, path, "IPSets")?;
    let sets = each_ip_set(alloc, all, &at)?;
    Ok(sets)
}

fn each_ip_set(alloc: Global, all: &[Value], path: &Text) -> Result<Items<IpSet>, ReadFault>
    ensures { Gives read_faults.Memory (λ sets. sets) result (each_from ip_set_at 0 (map view all.now) path.now) }
{
    let mut sets = Items::new(alloc);
    let mut index: u64 = 0;
    for found in all {
        let at = index_path(alloc, path, index)?;
        sets.push(wrapped_ip_set(alloc, found, &at)?)?;
        index += 1;
    }
    Ok(sets)
}

// An address set, wrapped or not.
#[tactic(auto, unfolding(crate::specs::Lists::ip_set_at))]
fn wrapped_ip_set(alloc: Global, v: &Value, path: &Text) -> Result<IpSet, ReadFault>
    ensures { Gives read_faults.Memory (λ set. set) result (ip_set_at (view v.now) path.now) }
{
    let found = wrapped(v, "IPSet");
    let at = member_path(alloc, path, "IPSet")?;
    unwrapped_ip_set(alloc, found, &at, v, path)
}

fn unwrapped_ip_set(
    alloc: Global,
    found: Option<&Value>,
    at: &Text,
    v: &Value,
    path: &Text,
) -> Result<IpSet, ReadFault>
    ensures { Gives read_faults.Memory (λ set. set) result (unwrapped ip_set_of (option_map (λ v. view v.now) found.entry) at.now (view v.now) path.now) }
{
    match found {
        Some(found) => ip_set(alloc, found, at),
        None => ip_set(alloc, v, path),
    }
}

/// The pattern sets of the bundle.
#[tactic(auto, unfolding(crate::specs::Lists::regex_sets_at))]
pub(crate) fn regex_sets(
    alloc: Global,
    v: &Value,
    path: &Text,
) -> Result<Items<RegexSet>, ReadFault>
    ensures { Gives read_faults.Memory (λ sets. sets) result (regex_sets_at (view v.now) path.now) }
{
    let all = optional_list(alloc, v, "RegexPatternSets", path)?;
    let at = member_path(alloc, path, "RegexPatternSets")?;
    let sets = each_regex_set(alloc, all, &at)?;
    Ok(sets)
}

fn each_regex_set(alloc: Global, all: &[Value], path: &Text) -> Result<Items<RegexSet>, ReadFault>
    ensures { Gives read_faults.Memory (λ sets. sets) result (each_from regex_set_at 0 (map view all.now) path.now) }
{
    let mut sets = Items::new(alloc);
    let mut index: u64 = 0;
    for found in all {
        let at = index_path(alloc, path, index)?;
        sets.push(wrapped_regex_set(alloc, found, &at)?)?;
        index += 1;
    }
    Ok(sets)
}

// A pattern set, wrapped or not.
#[tactic(auto, unfolding(crate::specs::Lists::regex_set_at))]
fn wrapped_regex_set(alloc: Global, v: &Value, path: &Text) -> Result<RegexSet, ReadFault>
    ensures { Gives read_faults.Memory (λ set. set) result (regex_set_at (view v.now) path.now) }
{
    let found = wrapped(v, "RegexPatternSet");
    let at = member_path(alloc, path, "RegexPatternSet")?;
    unwrapped_regex_set(alloc, found, &at, v, path)
}

fn unwrapped_regex_set(
    alloc: Global,
    found: Option<&Value>,
    at: &Text,
    v: &Value,
    path: &Text,
) -> Result<RegexSet, ReadFault>
    ensures { Gives read_faults.Memory (λ set. set) result (unwrapped regex_set_of (option_map (λ v. view v.now) found.entry) at.now (view v.now) path.now) }
{
    match found {
        Some(found) => regex_set(alloc, found, at),
        None => regex_set(alloc, v, path),
    }
}

/// The capacities of managed rule groups that the bundle states.
#[tactic(auto, unfolding(crate::specs::Lists::managed_capacities_at))]
pub(crate) fn managed_capacities(
    alloc: Global,
    v: &Value,
    path: &Text,
) -> Result<Items<ManagedCapacity>, ReadFault>
    ensures { Gives read_faults.Memory (λ capacities. capacities) result (managed_capacities_at (view v.now) path.now) }
{
    let all = optional_list(alloc, v, "ManagedCapacities", path)?;
    let at = member_path(alloc, path, "ManagedCapacities")?;
    let capacities = each_capacity(alloc, all, &at)?;
    Ok(capacities)
}

fn each_capacity(
    alloc: Global,
    all: &[Value],
    path: &Text,
) -> Result<Items<ManagedCapacity>, ReadFault>
    ensures { Gives read_faults.Memory (λ capacities. capacities) result (each_from managed_capacity_of 0 (map view all.now) path.now) }
{
    let mut capacities = Items::new(alloc);
    let mut index: u64 = 0;
    for found in all {
        let at = index_path(alloc, path, index)?;
        capacities.push(managed_capacity(alloc, found, &at)?)?;
        index += 1;
    }
    Ok(capacities)
}
