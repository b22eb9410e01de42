//! Labels that rules add.

ghost use Rattle.acl_json.specs.Rules.{label_of, labels_at, labels_of as labels_in};
ghost use Rattle.json_view.specs.Words.{each_from};
ghost use Rattle.serde_json.specs.View.{view};
ghost use Rattle.std.specs.Prelude.{◌≡◌, map};
ghost use Rattle.waf_model.specs.Gives.{Gives};
ghost use Rattle.waf_model.specs.declared.read_fault.ReadFault.TheVariants as read_faults;

use json_view::{index_path, label_member, member_path, optional_list, within_limit};
use serde_json::Value;
use std::alloc::Global;
use waf_model::{Items, ReadFault, Text};

// A rule adds at most so many labels.
const MOST_LABELS: u32 = 100;

// The labels of a rule.
#[tactic(auto, unfolding(crate::specs::Rules::labels_at))]
pub(crate) fn labels(alloc: Global, v: &Value, path: &Text) -> Result<Items<Text>, ReadFault>
    ensures { Gives read_faults.Memory (λ labels. labels) result (labels_at (view v.now) path.now) }
{
    let all = optional_list(alloc, v, "RuleLabels", path)?;
    let at = member_path(alloc, path, "RuleLabels")?;
    let labels = labels_of(alloc, all, &at)?;
    Ok(labels)
}

// The labels of a list that isn't too long.
fn labels_of(alloc: Global, all: &[Value], path: &Text) -> Result<Items<Text>, ReadFault>
    ensures { Gives read_faults.Memory (λ labels. labels) result (labels_in (map view all.now) path.now) }
{
    within_limit(alloc, all, MOST_LABELS, path)?;
    let labels = each_label(alloc, all, path)?;
    Ok(labels)
}

fn each_label(alloc: Global, all: &[Value], path: &Text) -> Result<Items<Text>, ReadFault>
    ensures { Gives read_faults.Memory (λ labels. labels) result (each_from label_of 0 (map view all.now) path.now) }
{
    let mut labels = Items::new(alloc);
    let mut index: u64 = 0;
    for found in all {
        let at = index_path(alloc, path, index)?;
        labels.push(Text::of(alloc, label_member(alloc, found, "Name", &at)?.as_bytes())?)?;
        index += 1;
    }
    Ok(labels)
}
