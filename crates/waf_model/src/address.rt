//! Client addresses and ranges of them.

ghost use Rattle.std.specs.Prelude.{◌≤◌};
ghost use Rattle.waf_model.specs.Prefix.{longest_prefix};

/// A client address, as a number whose most significant byte is the first.
#[derive(Clone, Copy, Debug, PartialEq, Eq)]
pub enum Address {
    V4(u32),
    V6(u128),
}

/// The addresses of the base's version that agree with it in its first `bits` bits (RFC 4632, RFC 4291).
#[derive(Clone, Copy, Debug, PartialEq, Eq)]
pub struct Cidr {
    pub base: Address,
    /// At most 32 for an IPv4 base, and at most 128 for an IPv6 base.
    pub bits: u8,
    ghost in_range: { bits ≤ longest_prefix base },
}
