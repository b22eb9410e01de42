//! Texts and lists of JSON as they are written: compact, with only the escapes that must be (RFC 8259, 7).

ghost use Rattle.std.specs.Prelude.{◌≡◌, ◌++◌, ◌∷◌, ◌/◌, ◌%◌, [], ◌<◌, codes, nat_lt, if◌then◌else◌, OnOk};
ghost use Rattle.std.specs.List.{flat_map};
ghost use Rattle.json_text.specs.Separators.{comma_before};
ghost use Rattle.waf_model.specs.JsonText.{escaped, hex_digit as hex_digit_of, json_string};

use waf_model::{Memory, Text};

fn hex_digit(number: u8) -> u8
    requires { number < 16 }
    ensures { result ≡ hex_digit_of number }
{
    if number < 10 {
        48 + number
    } else {
        87 + number
    }
}

// Writes a byte within a text, escaped where it must be.
fn push_escaped(text: &mut Text, byte: u8) -> Result<(), Memory>
    ensures { OnOk result (text.new ≡ text.old ++ escaped byte) }
{
    match byte {
        b'"' => text.push(b"\\\""),
        b'\\' => text.push(b"\\\\"),
        8 => text.push(b"\\b"),
        9 => text.push(b"\\t"),
        10 => text.push(b"\\n"),
        12 => text.push(b"\\f"),
        13 => text.push(b"\\r"),
        _ => push_plain(text, byte),
    }
}

// Writes a byte that has no letter of its own after a `\`.
fn push_plain(text: &mut Text, byte: u8) -> Result<(), Memory>
    ensures { OnOk result (text.new ≡ text.old ++ (if nat_lt byte 32 then codes "\\u00" ++ hex_digit_of (byte / 16) ∷ hex_digit_of (byte % 16) ∷ [] else byte ∷ [])) }
{
    if byte < 32 {
        text.push(b"\\u00")?;
        return text.push(&[hex_digit(byte / 16), hex_digit(byte % 16)]);
    }
    text.push(&[byte])
}

/// Adds the bytes as a text in quotation marks. It fails only for want of memory.
pub fn push_string(text: &mut Text, value: &[u8]) -> Result<(), Memory>
    ensures { OnOk result (text.new ≡ text.old ++ json_string value.now) }
{
    text.push(b"\"")?;
    push_all_escaped(text, value)?;
    text.push(b"\"")
}

/// The same of a text. It fails only for want of memory.
pub fn push_text(text: &mut Text, value: &Text) -> Result<(), Memory>
    ensures { OnOk result (text.new ≡ text.old ++ json_string value.now) }
{
    push_string(text, value.bytes())
}

fn push_all_escaped(text: &mut Text, value: &[u8]) -> Result<(), Memory>
    ensures { OnOk result (text.new ≡ text.old ++ flat_map escaped value.now) }
{
    for byte in value {
        push_escaped(text, *byte)?;
    }
    Ok(())
}

/// Adds what stands before the element at a place of a list: a comma, but before the first nothing. It fails only for want
/// of memory.
pub fn push_separator(text: &mut Text, place: usize) -> Result<(), Memory>
    ensures { OnOk result (text.new ≡ text.old ++ comma_before place) }
{
    if place == 0 {
        return Ok(());
    }
    text.push(b",")
}
