//! Sets of bytes.

ghost use Rattle.std.specs.Prelude.{◌≡◌, ℕ, ◌||◌, false};
ghost use Rattle.waf_model.specs.Pattern.{has_byte};

use waf_model::ByteSet;

/// The set of no byte.
pub(crate) fn no_byte() -> ByteSet
    ensures { (byte : ℕ) → has_byte result byte ≡ false }
{
    ByteSet { low: 0, high: 0 }
}

/// Whether the byte is in the set.
pub(crate) fn has(set: &ByteSet, byte: u8) -> bool
    ensures { result ≡ has_byte set.now byte }
{
    if byte < 128 {
        (set.low >> byte) & 1 == 1
    } else {
        (set.high >> (byte - 128)) & 1 == 1
    }
}

/// The bytes that are in one of the sets.
pub(crate) fn union(one: ByteSet, other: ByteSet) -> ByteSet
    ensures { (byte : ℕ) → has_byte result byte ≡ (has_byte one byte || has_byte other byte) }
{
    ByteSet {
        low: one.low | other.low,
        high: one.high | other.high,
    }
}
