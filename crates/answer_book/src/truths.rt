//! Members that are true or false.

ghost use Rattle.answer_book.specs.AnswersReading.{truth_member_at};
ghost use Rattle.serde_json.specs.View.{view};
ghost use Rattle.waf_model.specs.Gives.{Gives};
ghost use Rattle.waf_model.specs.declared.read_fault.ReadFault.TheVariants as read_faults;

use json_view::{member, member_path, truth};
use serde_json::Value;
use std::alloc::Global;
use waf_model::{ReadFault, Text};

/// Whether the member of that name is true; Shape at the path or at the member's path.
pub(crate) fn truth_member(
    alloc: Global,
    v: &Value,
    name: &str,
    path: &Text,
) -> Result<bool, ReadFault>
    ensures { Gives read_faults.Memory (λ found. found) result (truth_member_at (view v.now) name.now path.now) }
{
    let found = member(alloc, v, name, path)?;
    let at = member_path(alloc, path, name)?;
    Ok(truth(alloc, found, &at)?)
}
