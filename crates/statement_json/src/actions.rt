//! Actions of rules.

ghost use Rattle.serde_json.specs.View.{view};
ghost use Rattle.statement_json.specs.Actions.{action_at, action_of as action_in, needed_action as needed_action_in};
ghost use Rattle.std.specs.Prelude.{◌≡◌, option_map};
ghost use Rattle.waf_model.specs.Gives.{Gives};
ghost use Rattle.waf_model.specs.declared.read_fault.ReadFault.TheVariants as read_faults;

use crate::block::block_code;
use json_view::{copy_of, is_there, member_path, named_count, optional};
use serde_json::Value;
use std::alloc::Global;
use waf_model::{Action, ReadFault, Text};

/// The action in the member of that name: Shape at the path where the value is no object, Action at the member's path
/// where it doesn't name exactly one action, and else the fault of the code of a Block (API type `RuleAction`).
pub fn action(alloc: Global, name: &str, v: &Value, path: &Text) -> Result<Action, ReadFault>
    ensures { Gives read_faults.Memory (λ action. action) result (action_at name.now (view v.now) path.now) }
{
    let found = optional(alloc, v, name, path)?;
    let at = member_path(alloc, path, name)?;
    needed_action(alloc, found, &at)
}

// An action that must be there.
fn needed_action(alloc: Global, found: Option<&Value>, path: &Text) -> Result<Action, ReadFault>
    ensures { Gives read_faults.Memory (λ action. action) result (needed_action_in (option_map (λ v. view v.now) found.entry) path.now) }
{
    match found {
        Some(found) => action_of(alloc, found, path),
        None => Err(ReadFault::Action(copy_of(alloc, path)?)),
    }
}

// The action that exactly one member names, Block with its code.
#[tactic(auto, unfolding(crate::specs::Actions::action_of))]
fn action_of(alloc: Global, v: &Value, path: &Text) -> Result<Action, ReadFault>
    ensures { Gives read_faults.Memory (λ action. action) result (action_in (view v.now) path.now) }
{
    if named_count(v, &["Allow", "Block", "Count", "Captcha", "Challenge"]) != 1 {
        return Err(ReadFault::Action(copy_of(alloc, path)?));
    }
    if is_there(v, "Allow") {
        Ok(Action::Allow)
    } else if is_there(v, "Block") {
        Ok(Action::Block {
            code: block_code(alloc, v, path)?,
        })
    } else if is_there(v, "Count") {
        Ok(Action::Count)
    } else if is_there(v, "Captcha") {
        Ok(Action::Captcha)
    } else {
        Ok(Action::Challenge)
    }
}
