//! Texts of IPv4 addresses (RFC 3986, 3.2.2, `IPv4address`).

ghost use Rattle.std.specs.Prelude.{◌≡◌, [], ◌∷◌};
ghost use Rattle.waf_model.specs.AddressText.{is_digit as digit_test, is_first_digit as first_digit_test, octet_of as octet_of_text, ipv4_of as ipv4_of_text};

use crate::cutting::cut_once;

fn is_digit(byte: u8) -> bool
    ensures { result ≡ digit_test byte }
{
    48 <= byte && byte <= 57
}

fn is_first_digit(byte: u8) -> bool
    ensures { result ≡ first_digit_test byte }
{
    49 <= byte && byte <= 57
}

/// A number 0 to 255 in decimal digits, without leading zeros.
pub(crate) fn octet_of(text: &[u8]) -> Option<u8>
    ensures { result ≡ octet_of_text text.now }
{
    match text {
        [a] => one_digit(*a),
        [a, b] => two_digits(*a, *b),
        [a, b, c] => three_digits(*a, *b, *c),
        _ => None,
    }
}

fn one_digit(a: u8) -> Option<u8>
    ensures { result ≡ octet_of_text (a ∷ []) }
{
    if is_digit(a) { Some(a - 48) } else { None }
}

fn two_digits(a: u8, b: u8) -> Option<u8>
    ensures { result ≡ octet_of_text (a ∷ b ∷ []) }
{
    if is_first_digit(a) && is_digit(b) {
        Some(10 * (a - 48) + (b - 48))
    } else {
        None
    }
}

fn three_digits(a: u8, b: u8, c: u8) -> Option<u8>
    ensures { result ≡ octet_of_text (a ∷ b ∷ c ∷ []) }
{
    if !is_first_digit(a) || !is_digit(b) || !is_digit(c) {
        return None;
    }
    let number = 100 * u16::from(a - 48) + 10 * u16::from(b - 48) + u16::from(c - 48);
    if number <= 255 {
        Some(number as u8)
    } else {
        None
    }
}

/// The address as a number whose most significant byte is the first, or none where the text is no IPv4 address.
#[tactic(auto, unfolding(waf_model::specs::AddressText::ipv4_of))]
pub(crate) fn ipv4_of(text: &[u8]) -> Option<u32>
    ensures { result ≡ ipv4_of_text text.now }
{
    let (first, rest) = cut_once(b'.', text)?;
    let (second, rest) = cut_once(b'.', rest)?;
    let (third, fourth) = cut_once(b'.', rest)?;
    let a = octet_of(first)?;
    let b = octet_of(second)?;
    let c = octet_of(third)?;
    let d = octet_of(fourth)?;
    Some(16777216 * u32::from(a) + 65536 * u32::from(b) + 256 * u32::from(c) + u32::from(d))
}
