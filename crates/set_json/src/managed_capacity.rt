//! Capacities of managed rule groups.

ghost use Rattle.serde_json.specs.View.{view};
ghost use Rattle.set_json.specs.Sets.{managed_capacity_of};
ghost use Rattle.std.specs.Prelude.{◌≡◌, IfOk, option_map};
ghost use Rattle.waf_model.specs.Gives.{Gives};
ghost use Rattle.waf_model.specs.declared.read_fault.ReadFault.TheVariants as read_faults;

use json_view::{optional_text, text_member, whole_member};
use serde_json::Value;
use std::alloc::Global;
use waf_model::{ManagedCapacity, Memory, ReadFault, Text};

// The greatest capacity of a managed rule group.
const GREATEST_CAPACITY: u64 = 1_000_000;

/// The capacity of a managed rule group that the value states.
#[tactic(auto, unfolding(crate::specs::Sets::managed_capacity_of))]
pub(crate) fn managed_capacity(
    alloc: Global,
    v: &Value,
    path: &Text,
) -> Result<ManagedCapacity, ReadFault>
    ensures { Gives read_faults.Memory (λ capacity. capacity) result (managed_capacity_of (view v.now) path.now) }
{
    let vendor = Text::of(alloc, text_member(alloc, v, "VendorName", path)?.as_bytes())?;
    let name = Text::of(alloc, text_member(alloc, v, "Name", path)?.as_bytes())?;
    let version = copied(alloc, optional_text(alloc, v, "Version", path)?)?;
    let capacity = whole_member(alloc, v, "Capacity", path, 0, GREATEST_CAPACITY)?;
    Ok(ManagedCapacity {
        vendor,
        name,
        version,
        capacity: capacity as u32,
    })
}

fn copied(alloc: Global, text: Option<&str>) -> Result<Option<Text>, Memory>
    ensures { IfOk result (λ copy. copy ≡ option_map (λ text. text.now) text.entry) }
{
    match text {
        Some(text) => Ok(Some(Text::of(alloc, text.as_bytes())?)),
        None => Ok(None),
    }
}
