//! Single bytes at the front of a text: plain ones and escapes.

ghost use Rattle.std.specs.Prelude.{◌≡◌, ◌<◌, MatchOption, length};
ghost use Rattle.waf_model.specs.PatternPieces.{escaped, hex_digit, hex_at, escape_at, opens_name, single_at, begins_with, tail};

/// The byte stands at the front.
pub(crate) fn begins(byte: u8, text: &[u8]) -> bool
    ensures { result ≡ begins_with byte text.now }
{
    match text {
        [first, ..] => *first == byte,
        [] => false,
    }
}

/// What follows the first byte.
pub(crate) fn after(text: &[u8]) -> &[u8]
    ensures { result.now ≡ tail text.now }
{
    match text {
        [_, rest @ ..] => rest,
        [] => text,
    }
}

/// The byte that a backslash and this one stand for: `\n \r \t \f` and punctuation.
fn unescaped(byte: u8) -> Option<u8>
    ensures { result ≡ escaped byte }
{
    match byte {
        b'n' => Some(b'\n'),
        b'r' => Some(b'\r'),
        b't' => Some(b'\t'),
        b'f' => Some(12),
        33..=47 | 58..=64 | 91..=96 | 123..=126 => Some(byte),
        _ => None,
    }
}

/// The value of a hex digit.
fn digit_value(byte: u8) -> Option<u8>
    ensures { result ≡ hex_digit byte }
{
    match byte {
        b'0'..=b'9' => Some(byte - b'0'),
        b'A'..=b'F' => Some(byte - 55),
        b'a'..=b'f' => Some(byte - 87),
        _ => None,
    }
}

/// The byte of two hex digits.
fn hex(text: &[u8]) -> Option<(u8, &[u8])>
    ensures value { MatchOption result (hex_at text.now ≡ None) (λ found. hex_at text.now ≡ Some (found.0, found.1.now)) }
    ensures shorter { MatchOption result (Unit {0}) (λ found. length found.1.now < length text.now) }
{
    match text {
        [high, low, rest @ ..] => {
            let high = digit_value(*high)?;
            let low = digit_value(*low)?;
            Some((16 * high + low, rest))
        }
        _ => None,
    }
}

/// The byte that an escape stands for, after its backslash.
pub(crate) fn escape(text: &[u8]) -> Option<(u8, &[u8])>
    ensures value { MatchOption result (escape_at text.now ≡ None) (λ found. escape_at text.now ≡ Some (found.0, found.1.now)) }
    ensures shorter { MatchOption result (Unit {0}) (λ found. length found.1.now < length text.now) }
{
    match text {
        [b'x', rest @ ..] => hex(rest),
        [first, rest @ ..] => Some((unescaped(*first)?, rest)),
        [] => None,
    }
}

/// A `[` before these would open a name.
fn names(text: &[u8]) -> bool
    ensures { result ≡ opens_name text.now }
{
    match text {
        [first, ..] => *first == b':' || *first == b'.' || *first == b'=',
        [] => false,
    }
}

/// A single byte of a class: an escape, or a byte but `\`, `]` and `-`.
pub(crate) fn single(text: &[u8]) -> Option<(u8, &[u8])>
    ensures value { MatchOption result (single_at text.now ≡ None) (λ found. single_at text.now ≡ Some (found.0, found.1.now)) }
    ensures shorter { MatchOption result (Unit {0}) (λ found. length found.1.now < length text.now) }
{
    let (first, rest) = text.split_first()?;
    match *first {
        b'\\' => escape(rest),
        b']' | b'-' => None,
        b'[' if names(rest) => None,
        32..=126 => Some((*first, rest)),
        _ => None,
    }
}
