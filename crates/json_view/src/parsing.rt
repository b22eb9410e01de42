//! The value that bytes are read as.

ghost use Rattle.serde_json.specs.View.{view};
ghost use Rattle.std.specs.Prelude.{◌≡◌, IfOk, option_map};
ghost use Rattle.waf_model.specs.Json.{parsed};

use serde_json::Value;
use std::alloc::Global;
use waf_model::Memory;

/// The JSON value of the bytes; None where they are no UTF-8 or no JSON text that `serde_json` reads. It fails only for
/// want of memory.
#[tactic(auto, using(crate::proofs::Parsed::parsed_text, crate::proofs::Parsed::parsed_none))]
pub fn parse(alloc: Global, bytes: &[u8]) -> Result<Option<Value>, Memory>
    ensures { IfOk result (λ found. option_map view found ≡ parsed bytes.now) }
{
    match Value::from_slice(alloc, bytes) {
        Ok(value) => Ok(Some(value)),
        Err(error) => {
            if error.is_memory() {
                Err(Memory)
            } else {
                Ok(None)
            }
        }
    }
}
