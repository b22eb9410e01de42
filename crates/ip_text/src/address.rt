//! Which address a text is.

ghost use Rattle.std.specs.Prelude.{◌≡◌};
ghost use Rattle.waf_model.specs.AddressText.{address_of};

use crate::ipv4::ipv4_of;
use crate::ipv6::ipv6_of;
use waf_model::Address;

/// The address that the text is: an IPv4 address in four numbers, or an IPv6 address in groups, with `::` once for one
/// or more groups of zeros, without a dotted tail (RFC 3986, 3.2.2; RFC 4291, 2.2). None exactly where it is neither.
#[tactic(auto, unfolding(waf_model::specs::AddressText::address_of))]
pub fn read_address(text: &[u8]) -> Option<Address>
    ensures { result ≡ address_of text.now }
{
    match ipv4_of(text) {
        Some(number) => Some(Address::V4(number)),
        None => Some(Address::V6(ipv6_of(text)?)),
    }
}
