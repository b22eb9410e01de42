//! Rows of addresses and ranges: how they are read, and how addresses are written.

use crate::answers::one;
use crate::number_texts::{address_of, address_text};
use ip_text::{read_address, read_cidr, write_address};
use std::alloc::Global;
use text_rows::{Kind, unknown};
use waf_model::{Address, Cidr, Memory, Text};

/// A text, and the address that it is, or `none`.
pub(crate) struct ReadAddresses;

/// An address, and how it is written, and the address that this is read as.
pub(crate) struct WrittenAddresses;

/// `IPV4` or `IPV6` and a text, and the range's base and length of the prefix, or `none`.
pub(crate) struct Ranges;

/// The field of the address, or `none`.
fn field_of(alloc: Global, address: Option<Address>) -> Result<Text, Memory> {
    match address {
        Some(address) => address_text(alloc, address),
        None => Text::of(alloc, b"none"),
    }
}

impl Kind for ReadAddresses {
    fn answer(&self, alloc: Global, given: &[Text]) -> Result<Vec<Text>, Memory> {
        let [text] = given else {
            return unknown(alloc);
        };
        let mut fields = Vec::new(alloc);
        fields.push(field_of(alloc, read_address(text.bytes()))?)?;
        Ok(fields)
    }
}

impl Kind for WrittenAddresses {
    fn answer(&self, alloc: Global, given: &[Text]) -> Result<Vec<Text>, Memory> {
        let [address] = given else {
            return unknown(alloc);
        };
        let Some(address) = address_of(address.bytes()) else {
            return unknown(alloc);
        };
        let written = write_address(alloc, &address)?;
        let back = field_of(alloc, read_address(written.bytes()))?;
        let mut fields = Vec::new(alloc);
        fields.push(written)?;
        fields.push(back)?;
        Ok(fields)
    }
}

/// Whether the version is IPv6, or nothing where it is none.
fn is_v6(version: &[u8]) -> Option<bool> {
    match version {
        b"IPV4" => Some(false),
        b"IPV6" => Some(true),
        _ => None,
    }
}

/// The base of the range and the length of its prefix.
fn parts_of(alloc: Global, range: Cidr) -> Result<Vec<Text>, Memory> {
    let mut bits = Text::new(alloc);
    bits.push_number(alloc, u64::from(range.bits))?;
    let mut fields = Vec::new(alloc);
    fields.push(address_text(alloc, range.base)?)?;
    fields.push(bits)?;
    Ok(fields)
}

impl Kind for Ranges {
    fn answer(&self, alloc: Global, given: &[Text]) -> Result<Vec<Text>, Memory> {
        let [version, text] = given else {
            return unknown(alloc);
        };
        let Some(v6) = is_v6(version.bytes()) else {
            return unknown(alloc);
        };
        match read_cidr(v6, text.bytes()) {
            Some(range) => parts_of(alloc, range),
            None => one(alloc, b"none"),
        }
    }
}
