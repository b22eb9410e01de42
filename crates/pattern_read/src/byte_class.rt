//! Classes of bytes, and the sets that they stand for.

ghost use Rattle.std.specs.Prelude.{◌≡◌, ◌≤◌, ◌<◌, ℕ, Bool, List, if◌then◌else◌, MatchOption};
ghost use Rattle.waf_model.specs.Pattern.{has_byte};
ghost use Rattle.waf_model.specs.PatternClasses.{in_spans, other_case, class_has, bits, set_of, kind_spans};

use waf_model::ByteSet;

/// The bytes from the first to the last.
pub(crate) type Span = (u8, u8);

/// Whether a byte is in one of the spans.
fn is_in(spans: &[Span], byte: u8) -> bool
    ensures { result ≡ in_spans spans.now byte }
{
    spans.iter().any(|span| span.0 <= byte && byte <= span.1)
}

/// The other case of a letter, and every other byte itself.
fn with_other_case(byte: u8) -> u8
    ensures { result ≡ other_case byte }
{
    match byte {
        b'A'..=b'Z' => byte + 32,
        b'a'..=b'z' => byte - 32,
        _ => byte,
    }
}

/// Whether a byte is in the class.
fn has(spans: &[Span], fold: bool, negated: bool, byte: u8) -> bool
    ensures { result ≡ class_has spans.now fold negated byte }
{
    let within = is_in(spans, byte) || fold && is_in(spans, with_other_case(byte));
    if negated { !within } else { within }
}

/// 1 where a byte is in the class.
fn bit(spans: &[Span], fold: bool, negated: bool, byte: u8) -> u128
    ensures { result ≡ (if class_has spans.now fold negated byte then 1 else 0) }
{
    if has(spans, fold, negated, byte) {
        1
    } else {
        0
    }
}

/// The bits of 128 bytes from the first on, the lowest first.
fn half(spans: &[Span], fold: bool, negated: bool, first: u8) -> u128
    requires { first ≤ 128 }
    ensures { result ≡ bits spans.now fold negated first 128 }
{
    let mut number: u128 = 0;
    for done in 0..128 {
        number = 2 * number + bit(spans, fold, negated, first + (127 - done));
    }
    number
}

/// The set of the bytes of a class.
pub(crate) fn set(spans: &[Span], fold: bool, negated: bool) -> ByteSet
    ensures { result ≡ set_of spans.now fold negated }
{
    ByteSet {
        low: half(spans, fold, negated, 0),
        high: half(spans, fold, negated, 128),
    }
}

/// The bytes of `\d`, `\w` and `\s`, and of `\D`, `\W` and `\S`, which are all others.
pub(crate) fn kind(byte: u8) -> Option<&'static [Span]>
    ensures { MatchOption result (kind_spans byte ≡ None) (λ spans. kind_spans byte ≡ Some spans.now) }
{
    match byte {
        b'd' => Some(&[(48, 57)]),
        b'w' => Some(&[(48, 57), (65, 90), (95, 95), (97, 122)]),
        b's' => Some(&[(9, 13), (32, 32)]),
        b'D' => Some(&[(0, 47), (58, 255)]),
        b'W' => Some(&[(0, 47), (58, 64), (91, 94), (96, 96), (123, 255)]),
        b'S' => Some(&[(0, 8), (14, 31), (33, 255)]),
        _ => None,
    }
}

/// The set of a class has exactly the bytes of the class.
pub fn set_of_a_class()
    ensures { (spans : List (ℕ × ℕ)) (fold : Bool) (negated : Bool) (b : ℕ) → b < 256 → has_byte (set_of spans fold negated) b ≡ class_has spans fold negated b }
{}
