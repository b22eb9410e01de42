//! Transformations of single bytes: LOWERCASE, REMOVE_NULLS, REPLACE_NULLS.

ghost use Rattle.std.specs.Prelude.{◌≡◌, IfOk, map};
ghost use Rattle.waf_model.specs.TransformBytes.{lower_case, replace as replace_byte, lower_cased as lower_cased_of, nulls_removed as nulls_removed_of, nulls_replaced as nulls_replaced_of};

use std::alloc::Global;
use waf_model::Memory;

/// A to Z become a to z, and other bytes stay.
pub(crate) fn lower_case(byte: u8) -> u8
    ensures { result ≡ lower_case byte }
{
    byte.to_ascii_lowercase()
}

/// The text in lower case.
#[tactic(auto, unfolding(waf_model::specs::TransformBytes::lower_cased))]
pub(crate) fn lower_cased(alloc: Global, w: &[u8]) -> Result<Vec<u8>, Memory>
    ensures { IfOk result (λ text. text.items ≡ lower_cased_of w.now) }
{
    Ok(w.iter().map(|byte| lower_case(*byte)).collect(alloc)?)
}

/// The text without its bytes 0.
#[tactic(auto, unfolding(waf_model::specs::TransformBytes::nulls_removed))]
pub(crate) fn nulls_removed(alloc: Global, w: &[u8]) -> Result<Vec<u8>, Memory>
    ensures { IfOk result (λ text. text.items ≡ nulls_removed_of w.now) }
{
    let mut text = Vec::with_capacity(alloc, w.len())?;
    for byte in w {
        if *byte != 0 {
            text.push(*byte)?;
        }
    }
    Ok(text)
}

/// The text with spaces for its bytes 0.
#[tactic(auto, unfolding(waf_model::specs::TransformBytes::nulls_replaced))]
pub(crate) fn nulls_replaced(alloc: Global, w: &[u8]) -> Result<Vec<u8>, Memory>
    ensures { IfOk result (λ text. text.items ≡ nulls_replaced_of w.now) }
{
    replaced(alloc, w, 0, b' ')
}

/// The text with another byte in place of each that is `old`.
pub(crate) fn replaced(alloc: Global, w: &[u8], old: u8, new: u8) -> Result<Vec<u8>, Memory>
    ensures { IfOk result (λ text. text.items ≡ map (replace_byte old new) w.now) }
{
    Ok(
        w.iter()
            .map(|byte| if *byte == old { new } else { *byte })
            .collect(alloc)?,
    )
}
