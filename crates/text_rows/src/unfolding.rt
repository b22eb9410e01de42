//! A field as it is written, unfolded to the text that it stands for, byte by byte.

use crate::names::{Names, is_name};
use crate::row::RowsFault;
use std::alloc::Global;
use waf_base::Text;

/// The greatest number of digits in front of a `*`.
const MOST_DIGITS: usize = 8;

/// A piece that is to be repeated, as far as it was read.
#[derive(Debug, Drop)]
struct Piece {
    times: u64,
    text: Text,
}

/// A field that is being read.
#[derive(Debug, Drop)]
struct Unfolding<'a> {
    alloc: Global,
    names: &'a Names,
    /// The field's line, counted from 1.
    line: u64,
    /// What was read outside of all pieces.
    whole: Text,
    /// The pieces that are open, the outermost first.
    open: Vec<Piece>,
    /// What was read of an escape behind its `<`, where one is open.
    escape: Option<Text>,
}

/// The value of a hexadecimal digit, letters in upper case.
fn digit_value(digit: u8) -> Option<u8> {
    match digit {
        b'0'..=b'9' => Some(digit - b'0'),
        b'A'..=b'F' => Some(digit - b'A' + 10),
        _ => None,
    }
}

/// The byte that two hexadecimal digits name.
fn byte_named(high: u8, low: u8) -> Option<u8> {
    let high = digit_value(high)?;
    let low = digit_value(low)?;
    Some(high.wrapping_mul(16).wrapping_add(low))
}

/// The number that decimal digits name, at most `MOST_DIGITS` of them.
fn number_named(digits: &[u8]) -> Option<u64> {
    if digits.is_empty() || digits.len() > MOST_DIGITS {
        return None;
    }
    let mut number = 0u64;
    for digit in digits {
        if !digit.is_ascii_digit() {
            return None;
        }
        number = number
            .wrapping_mul(10)
            .wrapping_add(u64::from(digit.wrapping_sub(b'0')));
    }
    Some(number)
}

impl Unfolding<'_> {
    /// Adds bytes to the innermost piece that is open, or else to the whole.
    fn push(&mut self, bytes: &[u8]) -> Result<(), RowsFault> {
        match self.open.last_mut() {
            Some(piece) => piece.text.push(bytes)?,
            None => self.whole.push(bytes)?,
        }
        Ok(())
    }

    /// The fault that the line is none of the format.
    fn fault(&self) -> RowsFault {
        RowsFault::NoRow(self.line)
    }

    /// Adds what an escape stands for that has ended with its `>`.
    fn stand_for(&mut self, escape: &[u8]) -> Result<(), RowsFault> {
        if is_name(escape) {
            let Some(text) = self.names.text_of(escape) else {
                return Err(self.fault());
            };
            return self.push(text);
        }
        match escape {
            [] => Ok(()),
            [high, low] => match byte_named(*high, *low) {
                Some(byte) => self.push(&[byte]),
                None => Err(self.fault()),
            },
            _ => Err(self.fault()),
        }
    }

    /// Opens a piece that is repeated as many times as the digits say.
    fn begin_piece(&mut self, digits: &[u8]) -> Result<(), RowsFault> {
        let Some(times) = number_named(digits) else {
            return Err(self.fault());
        };
        let text = Text::new(self.alloc);
        self.open.push(Piece { times, text })?;
        Ok(())
    }

    /// Takes a byte outside of an escape. A `>` closes the innermost piece, where one is open.
    fn take_plain(&mut self, byte: u8) -> Result<(), RowsFault> {
        if byte == b'<' {
            self.escape = Some(Text::new(self.alloc));
            return Ok(());
        }
        if byte != b'>' {
            return self.push(&[byte]);
        }
        let Some(piece) = self.open.pop() else {
            return self.push(&[byte]);
        };
        for _ in 0..piece.times {
            self.push(piece.text.bytes())?;
        }
        Ok(())
    }

    /// Takes the next byte.
    fn take(&mut self, byte: u8) -> Result<(), RowsFault> {
        let Some(mut escape) = self.escape.take() else {
            return self.take_plain(byte);
        };
        match byte {
            b'>' => self.stand_for(escape.bytes()),
            b'*' => self.begin_piece(escape.bytes()),
            _ => {
                escape.push(&[byte])?;
                self.escape = Some(escape);
                Ok(())
            }
        }
    }
}

/// The text that a field stands for, as it is written in that line.
pub(crate) fn unfolded(
    alloc: Global,
    names: &Names,
    line: u64,
    field: &[u8],
) -> Result<Text, RowsFault> {
    let mut unfolding = Unfolding {
        alloc,
        names,
        line,
        whole: Text::new(alloc),
        open: Vec::new(alloc),
        escape: None,
    };
    for byte in field {
        unfolding.take(*byte)?;
    }
    if unfolding.escape.is_some() || !unfolding.open.is_empty() {
        return Err(unfolding.fault());
    }
    Ok(unfolding.whole)
}
