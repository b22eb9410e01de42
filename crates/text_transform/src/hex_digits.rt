//! Transformations of hexadecimal digits: HEX_DECODE, SQL_HEX_DECODE.

ghost use Rattle.std.specs.Prelude.{◌≡◌, ◌++◌, ◌*◌, ◌==◌, length, drop, IfOk, OnOk, is_some};
ghost use Rattle.text_transform.specs.Pairs.{SplitsPair};
ghost use Rattle.waf_model.specs.TransformHex.{hex_decoded as hex_decoded_of, is_pairs, leading_pairs, sql_hex_at, sql_hex_decoded as sql_hex_decoded_of};

use std::alloc::Global;
use waf_model::Memory;

/// The byte of the two digits that the text begins with, and what stands behind them.
fn split_pair(text: &[u8]) -> Option<(u8, &[u8])>
    ensures { SplitsPair text.now result }
{
    let [high, low, behind @ ..] = text else {
        return None;
    };
    let high = char::from(*high).to_digit(16)?;
    let low = char::from(*low).to_digit(16)?;
    Some((high as u8 * 16 + low as u8, behind))
}

/// Adds the bytes of the pairs of digits that the text begins with, and answers what stands behind them.
fn push_pairs<'a>(bytes: &mut Vec<u8>, text: &'a [u8]) -> Result<&'a [u8], Memory>
    ensures bytes { OnOk result (bytes.new.items ≡ bytes.old.items ++ leading_pairs text.now) }
    ensures rest { IfOk result (λ rest. rest.now ≡ drop (2 * length (leading_pairs text.now)) text.now) }
    ensures pairs { IfOk result (λ rest. is_pairs text.now ≡ (length rest.now == 0)) }
{
    let mut rest = text;
    while let Some((byte, behind)) = split_pair(rest) {
        bytes.push(byte)?;
        rest = behind;
    }
    Ok(rest)
}

/// The bytes of the pairs of digits that the text is made of, or the text itself where it is no even number of digits.
#[tactic(auto, unfolding(waf_model::specs::TransformHex::hex_decoded))]
pub(crate) fn hex_decoded(alloc: Global, w: &[u8]) -> Result<Vec<u8>, Memory>
    ensures { IfOk result (λ text. text.items ≡ hex_decoded_of w.now) }
{
    let mut bytes = Vec::with_capacity(alloc, w.len() / 2)?;
    if push_pairs(&mut bytes, w)?.is_empty() {
        Ok(bytes)
    } else {
        Ok(Vec::from_slice(alloc, w)?)
    }
}

/// Whether a hexadecimal literal begins the text: `0x` or `0X` and a pair of digits.
fn begins_literal(text: &[u8]) -> bool
    ensures { result ≡ is_some (sql_hex_at text.now) }
{
    (text.starts_with(b"0x") || text.starts_with(b"0X")) && split_pair(&text[2..]).is_some()
}

/// The text with the bytes of each hexadecimal literal in its place.
pub(crate) fn sql_hex_decoded(alloc: Global, w: &[u8]) -> Result<Vec<u8>, Memory>
    ensures { IfOk result (λ text. text.items ≡ sql_hex_decoded_of w.now) }
{
    let mut text = Vec::with_capacity(alloc, w.len())?;
    let mut rest = w;
    while let Some((first, next)) = rest.split_first() {
        if begins_literal(rest) {
            rest = push_pairs(&mut text, &rest[2..])?;
        } else {
            text.push(*first)?;
            rest = next;
        }
    }
    Ok(text)
}
