//! How an address is written.

ghost use Rattle.std.specs.Prelude.{◌≡◌, ◌≤◌, ◌-◌, ◌++◌, OnOk, IfOk, codes, string_bytes, false};
ghost use Rattle.std.specs.Fmt.{digits};
ghost use Rattle.waf_model.specs.RequestText.{address_text, group_text};
ghost use Rattle.waf_model.specs.declared.address.Address.TheVariants.{V4, V6};

use std::alloc::Global;
use waf_model::{Address, Memory, Text};

/// The address as a text: IPv4 as four numbers with `.` between, IPv6 as eight groups in lower case with `:` between,
/// without leading zeros and without `::`. It fails only for want of memory.
pub fn write_address(alloc: Global, address: &Address) -> Result<Text, Memory>
    ensures { IfOk result (λ text. text ≡ address_text address.now) }
{
    let mut text = Text::new(alloc);
    push_address(alloc, &mut text, *address)?;
    Ok(text)
}

fn push_address(alloc: Global, text: &mut Text, address: Address) -> Result<(), Memory>
    ensures { OnOk result (text.new ≡ text.old ++ address_text address) }
{
    match address {
        Address::V4(number) => push_ipv4(alloc, text, number),
        Address::V6(number) => push_ipv6(alloc, text, number),
    }
}

/// Writes four numbers with `.` between.
fn push_ipv4(alloc: Global, text: &mut Text, address: u32) -> Result<(), Memory>
    ensures { OnOk result (text.new ≡ text.old ++ address_text (V4 address)) }
{
    text.push_number(alloc, u64::from(address / 16777216))?;
    text.push(b".")?;
    text.push_number(alloc, u64::from(address / 65536 % 256))?;
    text.push(b".")?;
    text.push_number(alloc, u64::from(address / 256 % 256))?;
    text.push(b".")?;
    text.push_number(alloc, u64::from(address % 256))
}

/// Writes the sixteen bits at a place of an IPv6 address, from the first place 0 to the last place 7.
fn push_group(alloc: Global, text: &mut Text, address: u128, place: u32) -> Result<(), Memory>
    requires { place ≤ 7 }
    ensures { OnOk result (text.new ≡ text.old ++ group_text address place) }
{
    let bits = (address >> (16 * place)) % 65536;
    let digits = hex_of(alloc, bits as u16)?;
    text.push(digits.as_bytes())
}

/// The hexadecimal digits of a number, in lower case.
fn hex_of(alloc: Global, number: u16) -> Result<String, Memory>
    ensures { IfOk result (λ text. string_bytes text ≡ digits 16 false number) }
{
    Ok(format!(in alloc; "{number:x}")?)
}

/// Writes eight groups with `:` between.
fn push_ipv6(alloc: Global, text: &mut Text, address: u128) -> Result<(), Memory>
    ensures { OnOk result (text.new ≡ text.old ++ address_text (V6 address)) }
{
    push_four_groups(alloc, text, address, 7)?;
    text.push(b":")?;
    push_four_groups(alloc, text, address, 3)?;
    Ok(())
}

/// Writes four groups from a place on, downwards, with `:` between.
fn push_four_groups(alloc: Global, text: &mut Text, address: u128, place: u32) -> Result<(), Memory>
    requires least { 3 ≤ place }
    requires most { place ≤ 7 }
    ensures { OnOk result (text.new ≡ text.old ++ group_text address place ++ codes ":" ++ group_text address (place - 1) ++ codes ":" ++ group_text address (place - 2) ++ codes ":" ++ group_text address (place - 3)) }
{
    push_group(alloc, text, address, place)?;
    text.push(b":")?;
    push_group(alloc, text, address, place - 1)?;
    text.push(b":")?;
    push_group(alloc, text, address, place - 2)?;
    text.push(b":")?;
    push_group(alloc, text, address, place - 3)?;
    Ok(())
}
