//! Bytes in base64.

ghost use Rattle.base64.specs.Engines.{standard};
ghost use Rattle.base64.specs.GeneralPurpose.{decoded_of};
ghost use Rattle.request_parts.specs.RequestReading.{known_bytes};
ghost use Rattle.std.specs.Prelude.{◌≡◌, IfOk};
ghost use Rattle.waf_model.specs.Gives.{Gives};
ghost use Rattle.waf_model.specs.declared.read_fault.ReadFault.TheVariants as read_faults;

use base64::DecodeAllocError;
use base64::engine::general_purpose::STANDARD;
use std::alloc::Global;
use waf_model::{Memory, ReadFault, Text};

// The bytes of a text in canonical base64; Base64 at the path where it is no such text.
pub(crate) fn decoded_at(alloc: Global, text: &str, at: Text) -> Result<Text, ReadFault>
    ensures { Gives read_faults.Memory (λ bytes. bytes) result (known_bytes (decoded_of standard text.now) at) }
{
    match decoded(alloc, text)? {
        Some(bytes) => Ok(bytes),
        None => Err(ReadFault::Base64(at)),
    }
}

// The bytes of a text in canonical base64, or None where it is no such text.
#[tactic(auto, unfolding(base64::specs::GeneralPurpose::decoded_of))]
fn decoded(alloc: Global, text: &str) -> Result<Option<Text>, Memory>
    ensures { IfOk result (λ bytes. bytes ≡ decoded_of standard text.now) }
{
    match STANDARD.decode(alloc, text.as_bytes()) {
        Ok(bytes) => Ok(Some(Text::from_vec(bytes))),
        Err(DecodeAllocError::OutOfMemory) => Err(Memory),
        Err(DecodeAllocError::DecodeError(_)) => Ok(None),
    }
}
