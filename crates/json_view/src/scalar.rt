//! Texts, truth values and whole numbers.

ghost use Rattle.json_view.specs.Faults.{fault_of};
ghost use Rattle.json_view.specs.declared.fault.ViewFault.TheVariants as faults;
ghost use Rattle.serde_json.specs.View.{view};
ghost use Rattle.std.specs.Prelude.{◌≤◌, IfOk};
ghost use Rattle.waf_model.specs.Gives.{GivesAs};
ghost use Rattle.waf_model.specs.Json.{text_at, truth_at, whole_at};

use crate::fault::{ViewFault, number, shape};
use serde_json::Value;
use std::alloc::Global;
use waf_model::Text;

/// The text that the value is, or Shape at the path.
#[tactic(auto, using(crate::proofs::Scalars::text_of))]
pub fn text<'a>(alloc: Global, v: &'a Value, path: &Text) -> Result<&'a str, ViewFault>
    ensures { GivesAs fault_of faults.Memory (λ found. found.now) result (text_at (view v.now) path.now) }
{
    match v.as_str() {
        Some(found) => Ok(found),
        None => Err(shape(alloc, path)),
    }
}

/// The truth value that the value is, or Shape at the path.
pub fn truth(alloc: Global, v: &Value, path: &Text) -> Result<bool, ViewFault>
    ensures { GivesAs fault_of faults.Memory (λ found. found) result (truth_at (view v.now) path.now) }
{
    match v.as_bool() {
        Some(found) => Ok(found),
        None => Err(shape(alloc, path)),
    }
}

/// The number that the value is: Shape at the path where it is no number, and Number at the path where it is not
/// whole, or not between the two, which are in the range.
pub fn whole(alloc: Global, v: &Value, path: &Text, least: u64, most: u64) -> Result<u64, ViewFault>
    ensures value { GivesAs fault_of faults.Memory (λ found. found) result (whole_at (view v.now) path.now least most) }
    ensures within { IfOk result (λ found. (least ≤ found) × (found ≤ most)) }
{
    if !v.is_number() {
        return Err(shape(alloc, path));
    }
    match v.as_u64() {
        Some(found) if least <= found && found <= most => Ok(found),
        _ => Err(number(alloc, path)),
    }
}
