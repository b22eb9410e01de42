//! Default actions of web ACLs, and whether groups only count.

ghost use Rattle.acl_json.specs.Rules.{counting_at, counting_of as counting_in, needed_counting as needed_counting_in};
ghost use Rattle.acl_json.specs.WebAcls.{default_at, default_of as default_in, needed_default as needed_default_in};
ghost use Rattle.serde_json.specs.View.{view};
ghost use Rattle.std.specs.Prelude.{◌≡◌, option_map};
ghost use Rattle.waf_model.specs.Gives.{Gives};
ghost use Rattle.waf_model.specs.declared.read_fault.ReadFault.TheVariants as read_faults;

use json_view::{copy_of, is_there, member_path, named_count, optional};
use serde_json::Value;
use statement_json::block_code;
use std::alloc::Global;
use waf_model::{Decision, ReadFault, Text};

// The default action of a web ACL.
#[tactic(auto, unfolding(crate::specs::WebAcls::default_at))]
pub(crate) fn default_action(alloc: Global, v: &Value, path: &Text) -> Result<Decision, ReadFault>
    ensures { Gives read_faults.Memory (λ decision. decision) result (default_at (view v.now) path.now) }
{
    let found = optional(alloc, v, "DefaultAction", path)?;
    let at = member_path(alloc, path, "DefaultAction")?;
    needed_default(alloc, found, &at)
}

fn needed_default(alloc: Global, found: Option<&Value>, path: &Text) -> Result<Decision, ReadFault>
    ensures { Gives read_faults.Memory (λ decision. decision) result (needed_default_in (option_map (λ v. view v.now) found.entry) path.now) }
{
    match found {
        Some(found) => default_of(alloc, found, path),
        None => Err(ReadFault::Action(copy_of(alloc, path)?)),
    }
}

// Allow or Block, whichever exactly one member names, Block with its code.
#[tactic(auto, unfolding(crate::specs::WebAcls::default_of))]
fn default_of(alloc: Global, v: &Value, path: &Text) -> Result<Decision, ReadFault>
    ensures { Gives read_faults.Memory (λ decision. decision) result (default_in (view v.now) path.now) }
{
    if named_count(v, &["Allow", "Block"]) != 1 {
        return Err(ReadFault::Action(copy_of(alloc, path)?));
    }
    if is_there(v, "Allow") {
        Ok(Decision::Allow)
    } else {
        Ok(Decision::Block {
            code: block_code(alloc, v, path)?,
        })
    }
}

// Whether the group of a rule only counts.
#[tactic(auto, unfolding(crate::specs::Rules::counting_at))]
pub(crate) fn counting(alloc: Global, v: &Value, path: &Text) -> Result<bool, ReadFault>
    ensures { Gives read_faults.Memory (λ count. count) result (counting_at (view v.now) path.now) }
{
    let found = optional(alloc, v, "OverrideAction", path)?;
    let at = member_path(alloc, path, "OverrideAction")?;
    needed_counting(alloc, found, &at)
}

fn needed_counting(alloc: Global, found: Option<&Value>, path: &Text) -> Result<bool, ReadFault>
    ensures { Gives read_faults.Memory (λ count. count) result (needed_counting_in (option_map (λ v. view v.now) found.entry) path.now) }
{
    match found {
        Some(found) => counting_of(alloc, found, path),
        None => Err(ReadFault::Action(copy_of(alloc, path)?)),
    }
}

// None or Count, whichever exactly one member names.
fn counting_of(alloc: Global, v: &Value, path: &Text) -> Result<bool, ReadFault>
    ensures { Gives read_faults.Memory (λ count. count) result (counting_in (view v.now) path.now) }
{
    if named_count(v, &["None", "Count"]) != 1 {
        return Err(ReadFault::Action(copy_of(alloc, path)?));
    }
    Ok(is_there(v, "Count"))
}
