//! The list of rule groups.

ghost use Rattle.acl_json.specs.WebAcls.{group_of};
ghost use Rattle.serde_json.specs.View.{view};
ghost use Rattle.set_json.specs.Lists.{group_at, groups_at, groups_from, unwrapped};
ghost use Rattle.statement_json.specs.Statements.{most_statements};
ghost use Rattle.std.specs.Prelude.{◌≡◌, ◌+◌, ◌≤◌, All, IfOk, map, option_map, sum_by};
ghost use Rattle.waf_model.specs.Gives.{Gives};
ghost use Rattle.waf_model.specs.StatementCount.{group_count};
ghost use Rattle.waf_model.specs.WebAcl.{IsSoundGroup};
ghost use Rattle.waf_model.specs.declared.read_fault.ReadFault.TheVariants as read_faults;

use crate::unwrapped::wrapped;
use acl_json::group_among;
use json_view::{index_path, member_path, optional_list};
use serde_json::Value;
use statement_json::Encoding;
use std::alloc::Global;
use waf_model::{Group, Items, ReadFault, RegexSet, Text};

/// The rule groups of the bundle, among its pattern sets; `seen` counts the statements that were read.
#[tactic(auto, unfolding(crate::specs::Lists::groups_at))]
pub(crate) fn groups(
    alloc: Global,
    sets: &[RegexSet],
    encoding: Encoding,
    v: &Value,
    path: &Text,
    seen: &mut u32,
) -> Result<Items<Group>, ReadFault>
    requires few { seen.old ≤ most_statements }
    ensures few { seen.new ≤ most_statements }
    ensures counted { IfOk result (λ groups. seen.old + sum_by group_count groups ≡ seen.new) }
    ensures sound { IfOk result (All IsSoundGroup) }
    ensures reading { Gives read_faults.Memory (λ groups. (groups, seen.new)) result (groups_at sets.now encoding (view v.now) path.now seen.old) }
{
    let all = optional_list(alloc, v, "RuleGroups", path)?;
    let at = member_path(alloc, path, "RuleGroups")?;
    each_group(alloc, sets, encoding, all, &at, seen)
}

fn each_group(
    alloc: Global,
    sets: &[RegexSet],
    encoding: Encoding,
    all: &[Value],
    path: &Text,
    seen: &mut u32,
) -> Result<Items<Group>, ReadFault>
    requires few { seen.old ≤ most_statements }
    ensures few { seen.new ≤ most_statements }
    ensures counted { IfOk result (λ groups. seen.old + sum_by group_count groups ≡ seen.new) }
    ensures sound { IfOk result (All IsSoundGroup) }
    ensures reading { Gives read_faults.Memory (λ groups. (groups, seen.new)) result (groups_from sets.now encoding 0 (map view all.now) path.now seen.old) }
{
    let mut groups = Items::new(alloc);
    let mut index: u64 = 0;
    for found in all {
        let at = index_path(alloc, path, index)?;
        let group = wrapped_group(alloc, sets, encoding, found, &at, seen)?;
        groups.push(group)?;
        index += 1;
    }
    Ok(groups)
}

// A rule group, wrapped or not.
#[tactic(auto, unfolding(crate::specs::Lists::group_at))]
fn wrapped_group(
    alloc: Global,
    sets: &[RegexSet],
    encoding: Encoding,
    v: &Value,
    path: &Text,
    seen: &mut u32,
) -> Result<Group, ReadFault>
    requires few { seen.old ≤ most_statements }
    ensures few { seen.new ≤ most_statements }
    ensures counted { IfOk result (λ group. seen.old + group_count group ≡ seen.new) }
    ensures sound { IfOk result IsSoundGroup }
    ensures reading { Gives read_faults.Memory (λ group. (group, seen.new)) result (group_at sets.now encoding (view v.now) path.now seen.old) }
{
    let found = wrapped(v, "RuleGroup");
    let at = member_path(alloc, path, "RuleGroup")?;
    unwrapped_group(alloc, sets, encoding, found, &at, v, path, seen)
}

fn unwrapped_group(
    alloc: Global,
    sets: &[RegexSet],
    encoding: Encoding,
    found: Option<&Value>,
    at: &Text,
    v: &Value,
    path: &Text,
    seen: &mut u32,
) -> Result<Group, ReadFault>
    requires few { seen.old ≤ most_statements }
    ensures few { seen.new ≤ most_statements }
    ensures counted { IfOk result (λ group. seen.old + group_count group ≡ seen.new) }
    ensures sound { IfOk result IsSoundGroup }
    ensures reading { Gives read_faults.Memory (λ group. (group, seen.new)) result (unwrapped (λ found at. group_of sets.now encoding found at seen.old) (option_map (λ v. view v.now) found.entry) at.now (view v.now) path.now) }
{
    match found {
        Some(found) => group_among(alloc, found, at, sets, encoding, seen),
        None => group_among(alloc, v, path, sets, encoding, seen),
    }
}
