//! Fields as they are printed.

use waf_base::{Memory, Text};

/// The hexadecimal digit of a value below 16, letters in upper case.
fn digit_of(value: u8) -> u8 {
    match value {
        0..=9 => b'0' + value,
        10..=15 => b'A' + (value - 10),
        _ => b'?',
    }
}

/// Adds a field, with bytes below 32 and above 126 as escapes.
fn show(text: &mut Text, field: &Text) -> Result<(), Memory> {
    for byte in field.bytes() {
        if (32..=126).contains(byte) {
            text.push(&[*byte])?;
        } else {
            text.push(&[b'<', digit_of(*byte / 16), digit_of(*byte % 16), b'>'])?;
        }
    }
    Ok(())
}

/// Adds the fields, with a tab between two of them.
pub(crate) fn show_all(text: &mut Text, fields: &[Text]) -> Result<(), Memory> {
    for (place, field) in fields.iter().enumerate() {
        if place > 0 {
            text.push(b"\t")?;
        }
        show(text, field)?;
    }
    Ok(())
}
