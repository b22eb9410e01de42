//! Counts at the front of a text.

ghost use Rattle.std.specs.Prelude.{◌≡◌, ◌≤◌, ◌*◌, ◌+◌, MatchOption, length};
ghost use Rattle.waf_model.specs.PatternPieces.{more_digit, number_at, without_lazy, after_comma, braces_at};
ghost use Rattle.pattern_read.specs.Seen.{times_of};

use crate::piece::Times;
use crate::singles::{after, begins};

/// One more decimal digit, where one stands there.
fn extended(number: u32, text: &[u8]) -> (u32, &[u8])
    requires { number ≤ 99 }
    ensures value { more_digit (number, text.now) ≡ (result.0, result.1.now) }
    ensures small { result.0 ≤ 10 * number + 9 }
    ensures within { length result.1.now ≤ length text.now }
{
    match text {
        [digit @ b'0'..=b'9', rest @ ..] => (10 * number + u32::from(*digit - b'0'), rest),
        _ => (number, text),
    }
}

/// A number of one to three decimal digits, of at most 100.
fn number(text: &[u8]) -> Option<(u32, &[u8])>
    ensures value { MatchOption result (number_at text.now ≡ None) (λ found. number_at text.now ≡ Some (found.0, found.1.now)) }
    ensures small { MatchOption result (Unit {0}) (λ found. found.0 ≤ 100) }
    ensures within { MatchOption result (Unit {0}) (λ found. length found.1.now ≤ length text.now) }
{
    match text {
        [digit @ b'0'..=b'9', rest @ ..] => {
            let (tens, rest) = extended(u32::from(*digit - b'0'), rest);
            let (number, rest) = extended(tens, rest);
            if number <= 100 {
                Some((number, rest))
            } else {
                None
            }
        }
        _ => None,
    }
}

/// What follows the lazy `?` of a count, where one stands there.
pub(crate) fn past_lazy(text: &[u8]) -> &[u8]
    ensures value { result.now ≡ without_lazy text.now }
    ensures within { length result.now ≤ length text.now }
{
    if begins(b'?', text) {
        after(text)
    } else {
        text
    }
}

/// The rest of a count in braces after its comma: a brace, or the number at most and a brace.
fn open_ended(least: u32, text: &[u8]) -> Option<(Times, &[u8])>
    requires { least ≤ 100 }
    ensures value { MatchOption result (after_comma least text.now ≡ None) (λ found. after_comma least text.now ≡ Some (times_of found.0, found.1.now)) }
    ensures within { MatchOption result (Unit {0}) (λ found. length found.1.now ≤ length text.now) }
{
    if begins(b'}', text) {
        let times = Times {
            least,
            most: None,
            factor: least + 1,
        };
        return Some((times, past_lazy(after(text))));
    }
    let (most, rest) = number(text)?;
    if least <= most && begins(b'}', rest) {
        let times = Times {
            least,
            most: Some(most),
            factor: most,
        };
        Some((times, past_lazy(after(rest))))
    } else {
        None
    }
}

/// A count in braces, after its first brace.
pub(crate) fn braces(text: &[u8]) -> Option<(Times, &[u8])>
    ensures value { MatchOption result (braces_at text.now ≡ None) (λ found. braces_at text.now ≡ Some (times_of found.0, found.1.now)) }
    ensures within { MatchOption result (Unit {0}) (λ found. length found.1.now ≤ length text.now) }
{
    let (least, rest) = number(text)?;
    if begins(b'}', rest) {
        let times = Times {
            least,
            most: Some(least),
            factor: least,
        };
        Some((times, past_lazy(after(rest))))
    } else if begins(b',', rest) {
        open_ended(least, after(rest))
    } else {
        None
    }
}
