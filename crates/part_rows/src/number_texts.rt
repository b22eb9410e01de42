//! Addresses and ranges in rows: the version, a colon and the number in 8 or 32 hexadecimal digits, as `IPV4:0a000001`;
//! for a range also a slash and the length of its prefix.

use std::alloc::Global;
use waf_model::{Address, Cidr, Memory, Text};

/// The value of a hexadecimal digit, letters in lower case.
fn digit_value(digit: u8) -> Option<u8> {
    match digit {
        b'0'..=b'9' => Some(digit - b'0'),
        b'a'..=b'f' => Some(digit - b'a' + 10),
        _ => None,
    }
}

/// The number that these hexadecimal digits name, of which there are so many.
fn number_of(count: usize, digits: &[u8]) -> Option<u128> {
    if digits.len() != count {
        return None;
    }
    let mut number = 0u128;
    for digit in digits {
        number = (number << 4) | u128::from(digit_value(*digit)?);
    }
    Some(number)
}

/// The address that a field names.
pub(crate) fn address_of(field: &[u8]) -> Option<Address> {
    match field {
        [b'I', b'P', b'V', b'4', b':', digits @ ..] => {
            let number = number_of(8, digits)?;
            Some(Address::V4(u32::try_from(number).ok()?))
        }
        [b'I', b'P', b'V', b'6', b':', digits @ ..] => Some(Address::V6(number_of(32, digits)?)),
        _ => None,
    }
}

/// The number that decimal digits name, up to 999.
fn bits_of(digits: &[u8]) -> Option<u16> {
    if digits.is_empty() || digits.len() > 3 {
        return None;
    }
    let mut number = 0u16;
    for digit in digits {
        if !digit.is_ascii_digit() {
            return None;
        }
        number = number
            .wrapping_mul(10)
            .wrapping_add(u16::from(digit.wrapping_sub(b'0')));
    }
    Some(number)
}

/// The range of that base and length of the prefix, where it has no more bits than an address of that version.
fn range_from(base: Address, bits: u8) -> Option<Cidr> {
    let most = match base {
        Address::V4(_) => 32,
        Address::V6(_) => 128,
    };
    if bits > most {
        return None;
    }
    Some(Cidr { base, bits })
}

/// The range that a field names.
pub(crate) fn range_of(field: &[u8]) -> Option<Cidr> {
    let mut parts = field.splitn(2, |byte| *byte == b'/');
    let base = address_of(parts.next()?)?;
    let bits = bits_of(parts.next()?)?;
    range_from(base, u8::try_from(bits).ok()?)
}

/// Adds 8 hexadecimal digits.
pub(crate) fn push_v4(alloc: Global, text: &mut Text, number: u32) -> Result<(), Memory> {
    let digits = format!(in alloc; "{number:08x}")?;
    text.push(digits.as_bytes())
}

/// Adds 32 hexadecimal digits.
pub(crate) fn push_v6(alloc: Global, text: &mut Text, number: u128) -> Result<(), Memory> {
    let high = u64::try_from(number >> 64).unwrap_or(0);
    let low = u64::try_from(number & 0xffff_ffff_ffff_ffff).unwrap_or(0);
    let digits = format!(in alloc; "{high:016x}{low:016x}")?;
    text.push(digits.as_bytes())
}

/// The field of an address.
pub(crate) fn address_text(alloc: Global, address: Address) -> Result<Text, Memory> {
    match address {
        Address::V4(number) => {
            let mut text = Text::of(alloc, b"IPV4:")?;
            push_v4(alloc, &mut text, number)?;
            Ok(text)
        }
        Address::V6(number) => {
            let mut text = Text::of(alloc, b"IPV6:")?;
            push_v6(alloc, &mut text, number)?;
            Ok(text)
        }
    }
}
