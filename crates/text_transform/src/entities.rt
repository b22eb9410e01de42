//! The transformation HTML_ENTITY_DECODE.

ghost use Rattle.std.specs.List.{starts_with};
ghost use Rattle.std.specs.Prelude.{◌≡◌, ◌+◌, ◌%◌, ◌≤◌, ◌==◌, ◌||◌, codes, length, drop, IfOk};
ghost use Rattle.text_transform.specs.Fronts.{Splits};
ghost use Rattle.waf_model.specs.TransformEntities.{entities_decoded as entities_decoded_of, leading_digits, named_at, number_of, numbered_at, reference_at};

use std::alloc::Global;
use waf_model::Memory;

/// The most digits of a reference by number.
const MOST_DIGITS: usize = 7;

/// The byte of the named reference that the text begins with, and what stands behind it.
fn split_named(text: &[u8]) -> Option<(u8, &[u8])>
    ensures { Splits (named_at text.now) text.now result }
{
    if text.starts_with(b"&quot;") {
        Some((b'"', &text[6..]))
    } else if text.starts_with(b"&lt;") {
        Some((b'<', &text[4..]))
    } else if text.starts_with(b"&gt;") {
        Some((b'>', &text[4..]))
    } else if text.starts_with(b"&amp;") {
        Some((b'&', &text[5..]))
    } else if text.starts_with(b"&nbsp;") {
        Some((160, &text[6..]))
    } else {
        None
    }
}

/// The lowest byte of the number whose digits the text begins with, and what stands behind them. The base is at most 16.
fn split_digits(base: u32, text: &[u8]) -> (u32, &[u8])
    requires least { 2 ≤ base }
    requires most { base ≤ 16 }
    ensures number { result.0 ≡ number_of base (leading_digits base text.now) % 256 }
    ensures rest { result.1.now ≡ drop (length (leading_digits base text.now)) text.now }
    ensures count { length result.1.now + length (leading_digits base text.now) ≡ length text.now }
{
    let mut number = 0;
    let mut rest = text;
    while let Some((first, next)) = rest.split_first() {
        let Some(digit) = char::from(*first).to_digit(base) else {
            break;
        };
        number = (number * base + digit) % 256;
        rest = next;
    }
    (number, rest)
}

/// The byte of the number whose digits the text begins with, 1 to 7 of them and `;`, and what stands behind it.
fn split_number(base: u32, text: &[u8]) -> Option<(u8, &[u8])>
    requires least { 2 ≤ base }
    requires most { base ≤ 16 }
    ensures { Splits (numbered_at base text.now) text.now result }
{
    let (number, rest) = split_digits(base, text);
    let count = text.len() - rest.len();
    if 1 <= count && count <= MOST_DIGITS && rest.starts_with(b";") {
        Some((number as u8, &rest[1..]))
    } else {
        None
    }
}

/// Whether the mark of a reference by a hexadecimal number begins the text.
fn begins_hexadecimal(text: &[u8]) -> bool
    ensures { result ≡ (starts_with ◌==◌ text.now (codes "&#x") || starts_with ◌==◌ text.now (codes "&#X")) }
{
    text.starts_with(b"&#x") || text.starts_with(b"&#X")
}

/// The byte of the reference that the text begins with, and what stands behind it.
fn split_reference(text: &[u8]) -> Option<(u8, &[u8])>
    ensures { Splits (reference_at text.now) text.now result }
{
    if begins_hexadecimal(text) {
        split_number(16, &text[3..])
    } else if text.starts_with(b"&#") {
        split_number(10, &text[2..])
    } else {
        split_named(text)
    }
}

/// The text with the byte of each reference in its place.
pub(crate) fn entities_decoded(alloc: Global, w: &[u8]) -> Result<Vec<u8>, Memory>
    ensures { IfOk result (λ text. text.items ≡ entities_decoded_of w.now) }
{
    let mut text = Vec::with_capacity(alloc, w.len())?;
    let mut rest = w;
    while let Some((first, next)) = rest.split_first() {
        if let Some((byte, behind)) = split_reference(rest) {
            text.push(byte)?;
            rest = behind;
        } else {
            text.push(*first)?;
            rest = next;
        }
    }
    Ok(text)
}
