//! Texts of IPv6 addresses (RFC 4291, 2.2), of which those with a dotted tail are none here.

ghost use Rattle.std.specs.Prelude.{◌≡◌, ◌==◌, ◌<◌, ◌+◌, ◌*◌, ◌^◌};
ghost use Rattle.std.specs.List.{fold, list_any};
ghost use Rattle.waf_model.specs.AddressText.{eight_groups_of, ipv6_of as ipv6_of_text};

use std::net::Ipv6Addr;

/// The number with sixteen bits more at its end.
fn with_group(number: u128, group: u16) -> u128
    requires { number < 2 ^ 112 }
    ensures { result ≡ 65536 * number + group }
{
    65536 * number + u128::from(group)
}

/// The number whose most significant sixteen bits are the first group.
fn number_of(groups: [u16; 8]) -> u128
    ensures { result ≡ fold (λ n group. 65536 * n + group) 0 groups }
{
    let [a, b, c, d, e, f, g, h] = groups;
    let first = with_group(with_group(0, a), b);
    let second = with_group(with_group(first, c), d);
    let third = with_group(with_group(second, e), f);
    with_group(with_group(third, g), h)
}

/// Whether the text has a `.`, as those with a dotted tail have.
fn has_dot(text: &[u8]) -> bool
    ensures { result ≡ list_any (λ b. b == 46) text.now }
{
    text.contains(&b'.')
}

/// The eight groups, or none where the text is no IPv6 address.
fn eight_groups(text: &[u8]) -> Option<[u16; 8]>
    ensures { result ≡ eight_groups_of text.now }
{
    if has_dot(text) {
        return None;
    }
    match Ipv6Addr::parse_ascii(text) {
        Ok(address) => Some(address.segments()),
        Err(_) => None,
    }
}

/// The address as a number whose most significant bits are the first group, or none where the text is no IPv6 address.
#[tactic(auto, unfolding(waf_model::specs::AddressText::ipv6_of))]
pub(crate) fn ipv6_of(text: &[u8]) -> Option<u128>
    ensures { result ≡ ipv6_of_text text.now }
{
    let groups = eight_groups(text)?;
    Some(number_of(groups))
}
