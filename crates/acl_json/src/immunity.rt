//! Immunity times of web ACLs and rules.

ghost use Rattle.acl_json.specs.Immunity.{config_of as config_in, immunity_at, property_of as property_in};
ghost use Rattle.serde_json.specs.View.{view};
ghost use Rattle.std.specs.Prelude.{◌≡◌, option_map};
ghost use Rattle.waf_model.specs.Gives.{Gives};
ghost use Rattle.waf_model.specs.declared.read_fault.ReadFault.TheVariants as read_faults;

use json_view::{member_path, optional, whole_member};
use serde_json::Value;
use std::alloc::Global;
use waf_model::{ReadFault, Text};

// The longest immunity time, in seconds.
const LONGEST_IMMUNITY: u64 = 1_000_000_000;

// The immunity time in the member of that name, in seconds, if there is one.
pub(crate) fn immunity(
    alloc: Global,
    name: &str,
    v: &Value,
    path: &Text,
) -> Result<Option<u32>, ReadFault>
    ensures { Gives read_faults.Memory (λ time. time) result (immunity_at name.now (view v.now) path.now) }
{
    let found = optional(alloc, v, name, path)?;
    let at = member_path(alloc, path, name)?;
    config(alloc, found, &at)
}

fn config(alloc: Global, found: Option<&Value>, path: &Text) -> Result<Option<u32>, ReadFault>
    ensures { Gives read_faults.Memory (λ time. time) result (config_in (option_map (λ v. view v.now) found.entry) path.now) }
{
    let Some(found) = found else {
        return Ok(None);
    };
    let found = optional(alloc, found, "ImmunityTimeProperty", path)?;
    let at = member_path(alloc, path, "ImmunityTimeProperty")?;
    let time = property(alloc, found, &at)?;
    Ok(time)
}

fn property(alloc: Global, found: Option<&Value>, path: &Text) -> Result<Option<u32>, ReadFault>
    ensures { Gives read_faults.Memory (λ time. time) result (property_in (option_map (λ v. view v.now) found.entry) path.now) }
{
    let Some(found) = found else {
        return Ok(None);
    };
    let time = whole_member(alloc, found, "ImmunityTime", path, 1, LONGEST_IMMUNITY)?;
    Ok(Some(time as u32))
}
