//! Numbers in printed texts.

ghost use Rattle.std.specs.Prelude.{◌≡◌, ◌++◌, OnOk, decimal};

use std::alloc::Global;
use waf_model::{Memory, Text};

/// Writes a number in decimal digits.
pub(crate) fn push_decimal(alloc: Global, text: &mut Text, number: u32) -> Result<(), Memory>
    ensures { OnOk result (text.new ≡ text.old ++ decimal number) }
{
    text.push_number(alloc, u64::from(number))
}
