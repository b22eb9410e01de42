//! Texts of single values, as serde_json writes them.

ghost use Rattle.json.specs.Print.{escape, escape_byte, quoted};
ghost use Rattle.key_text.specs.Keys.{IsTextOf};
ghost use Rattle.serde_json.specs.View.{view};
ghost use Rattle.std.specs.Prelude.{◌≡◌, ◌++◌, ◌<◌, ◌∷◌, [], IfOk, OnOk};

use serde_json::Value;
use std::alloc::Global;
use waf_model::{Memory, Text};

// The compact JSON of the value.
pub(crate) fn text_of(alloc: Global, v: &Value) -> Result<Text, Memory>
    ensures { IfOk result (λ text. IsTextOf text (view v.now)) }
{
    let text = v.to_string(alloc)?;
    Ok(Text::from_vec(text.into_bytes()))
}

// The text in quotation marks.
pub(crate) fn quotation(alloc: Global, text: &str) -> Result<Text, Memory>
    ensures { IfOk result (λ quotation. quotation ≡ quoted text.now) }
{
    let value = Value::String(String::from_str(alloc, text)?);
    text_of(alloc, &value)
}

// The text in quotation marks, byte for byte, since a text may be no UTF-8.
pub(crate) fn byte_quotation(alloc: Global, text: &Text) -> Result<Text, Memory>
    ensures { IfOk result (λ quotation. quotation ≡ quoted text.now) }
{
    let mut all = Text::of(alloc, b"\"")?;
    for byte in text.bytes() {
        push_escaped(alloc, &mut all, *byte)?;
    }
    all.push(b"\"")?;
    Ok(all)
}

// Adds a byte as it stands within quotation marks.
#[tactic(auto, using(crate::proofs::Bytes::escape_byte_outside, crate::proofs::Bytes::within_quotation))]
fn push_escaped(alloc: Global, text: &mut Text, byte: u8) -> Result<(), Memory>
    ensures { OnOk result (text.new ≡ text.old ++ escape_byte byte) }
{
    if !byte.is_ascii() {
        return text.push(&[byte]);
    }
    let quotation = character_quotation(alloc, byte)?;
    let bytes = quotation.bytes();
    text.push(&bytes[1..bytes.len() - 1])
}

// The ASCII character in quotation marks.
#[tactic(auto, using(std::proofs::lemmas::Str::encode_ascii))]
fn character_quotation(alloc: Global, byte: u8) -> Result<Text, Memory>
    requires { byte < 128 }
    ensures { IfOk result (λ quotation. quotation ≡ (34 ∷ escape_byte byte) ++ 34 ∷ []) }
{
    let mut character = String::new(alloc);
    character.push(char::from(byte))?;
    quotation(alloc, character.as_str())
}
