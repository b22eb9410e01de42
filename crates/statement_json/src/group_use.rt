//! References to rule groups.

ghost use Rattle.json_view.specs.Words.{each_from};
ghost use Rattle.serde_json.specs.View.{view};
ghost use Rattle.statement_json.specs.Groups.{excluded_at, excluded_of, group_use_of, override_of as override_in, overrides_at};
ghost use Rattle.std.specs.Prelude.{◌≡◌, map};
ghost use Rattle.waf_model.specs.Gives.{Gives};
ghost use Rattle.waf_model.specs.declared.read_fault.ReadFault.TheVariants as read_faults;

use crate::actions::action;
use crate::matching::arn;
use json_view::{index_path, member_path, optional_list, text_member};
use serde_json::Value;
use std::alloc::Global;
use waf_model::{GroupUse, Items, Override, ReadFault, Text};

// A reference to a rule group, which counts nothing yet.
#[tactic(auto, unfolding(crate::specs::Groups::group_use_of))]
pub(crate) fn group_use(alloc: Global, v: &Value, path: &Text) -> Result<GroupUse, ReadFault>
    ensures { Gives read_faults.Memory (λ group. group) result (group_use_of (view v.now) path.now) }
{
    let arn = arn(alloc, v, path)?;
    let excluded = excluded(alloc, v, path)?;
    let overrides = overrides(alloc, v, path)?;
    Ok(GroupUse {
        arn,
        overrides,
        excluded,
        count: false,
    })
}

// The names of the rules that are excluded.
#[tactic(auto, unfolding(crate::specs::Groups::excluded_at))]
fn excluded(alloc: Global, v: &Value, path: &Text) -> Result<Items<Text>, ReadFault>
    ensures { Gives read_faults.Memory (λ names. names) result (excluded_at (view v.now) path.now) }
{
    let all = optional_list(alloc, v, "ExcludedRules", path)?;
    let at = member_path(alloc, path, "ExcludedRules")?;
    let names = each_excluded(alloc, all, &at)?;
    Ok(names)
}

fn each_excluded(alloc: Global, all: &[Value], path: &Text) -> Result<Items<Text>, ReadFault>
    ensures { Gives read_faults.Memory (λ names. names) result (each_from excluded_of 0 (map view all.now) path.now) }
{
    let mut names = Items::new(alloc);
    let mut index: u64 = 0;
    for found in all {
        let at = index_path(alloc, path, index)?;
        names.push(Text::of(alloc, text_member(alloc, found, "Name", &at)?.as_bytes())?)?;
        index += 1;
    }
    Ok(names)
}

// Other actions for rules.
#[tactic(auto, unfolding(crate::specs::Groups::overrides_at))]
fn overrides(alloc: Global, v: &Value, path: &Text) -> Result<Items<Override>, ReadFault>
    ensures { Gives read_faults.Memory (λ overrides. overrides) result (overrides_at (view v.now) path.now) }
{
    let all = optional_list(alloc, v, "RuleActionOverrides", path)?;
    let at = member_path(alloc, path, "RuleActionOverrides")?;
    let overrides = each_override(alloc, all, &at)?;
    Ok(overrides)
}

fn each_override(alloc: Global, all: &[Value], path: &Text) -> Result<Items<Override>, ReadFault>
    ensures { Gives read_faults.Memory (λ overrides. overrides) result (each_from override_in 0 (map view all.now) path.now) }
{
    let mut overrides = Items::new(alloc);
    let mut index: u64 = 0;
    for found in all {
        let at = index_path(alloc, path, index)?;
        overrides.push(override_of(alloc, found, &at)?)?;
        index += 1;
    }
    Ok(overrides)
}

// Another action for a rule.
#[tactic(auto, unfolding(crate::specs::Groups::override_of))]
fn override_of(alloc: Global, v: &Value, path: &Text) -> Result<Override, ReadFault>
    ensures { Gives read_faults.Memory (λ one. one) result (override_in (view v.now) path.now) }
{
    let name = Text::of(alloc, text_member(alloc, v, "Name", path)?.as_bytes())?;
    let action = action(alloc, "ActionToUse", v, path)?;
    Ok(Override { name, action })
}
