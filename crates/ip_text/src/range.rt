//! Which range of addresses a text is.

ghost use Rattle.std.specs.Prelude.{◌≡◌, ◌-◌, ◌%◌, ◌^◌, ◌≤◌};
ghost use Rattle.waf_model.specs.AddressText.{range_of, range_from as range_from_bits, version_of as version_of_text, without_rest as without_rest_bits};
ghost use Rattle.waf_model.specs.Prefix.{longest_prefix as longest};
ghost use Rattle.waf_model.specs.declared.address.Address.TheVariants.{V4, V6};

use crate::cutting::cut_once;
use crate::ipv4::{ipv4_of, octet_of};
use crate::ipv6::ipv6_of;
use waf_model::{Address, Cidr};

/// The range of IPv6 or IPv4 addresses that the text is: an address, `/` and a number without leading zeros, 1 to 32 or
/// 1 to 128, or an address alone, which is a range of all its bits. Bits after the prefix are set to 0 (RFC 4632, 3.1;
/// RFC 4291, 2.3). None exactly where it is no range of that version.
#[tactic(auto, unfolding(waf_model::specs::AddressText::range_of))]
pub fn read_cidr(v6: bool, text: &[u8]) -> Option<Cidr>
    ensures { result ≡ range_of v6 text.now }
{
    match cut_once(b'/', text) {
        None => {
            let base = version_of(v6, text)?;
            range_from(base, longest_prefix(base))
        }
        Some((base, bits)) => {
            let base = version_of(v6, base)?;
            let bits = octet_of(bits)?;
            range_from(base, bits)
        }
    }
}

/// The address that the text is, where it is of this version.
fn version_of(v6: bool, text: &[u8]) -> Option<Address>
    ensures { result ≡ version_of_text v6 text.now }
{
    if v6 {
        Some(Address::V6(ipv6_of(text)?))
    } else {
        Some(Address::V4(ipv4_of(text)?))
    }
}

/// The bits of an address of that version.
fn longest_prefix(address: Address) -> u8
    ensures { result ≡ longest address }
{
    match address {
        Address::V4(_) => 32,
        Address::V6(_) => 128,
    }
}

/// The range with this base and prefix, where the prefix has 1 to as many bits as an address of that version.
fn range_from(base: Address, bits: u8) -> Option<Cidr>
    ensures { result ≡ range_from_bits base bits }
{
    if bits < 1 || longest_prefix(base) < bits {
        return None;
    }
    let base = without_rest(bits, base);
    Some(Cidr { base, bits })
}

/// The address with 0 for every bit after the first so many.
fn without_rest(bits: u8, address: Address) -> Address
    requires least { 1 ≤ bits }
    requires most { bits ≤ longest address }
    ensures value { result ≡ without_rest_bits bits address }
    ensures version { longest result ≡ longest address }
{
    match address {
        Address::V4(number) => Address::V4(number - number % (1 << (32 - bits))),
        Address::V6(number) => Address::V6(number - number % (1 << (128 - bits))),
    }
}
