//! The members of a class.

ghost use Rattle.std.specs.Prelude.{◌≡◌, ◌<◌, ◌≤◌, ◌∷◌, [], MatchOption, length};
ghost use Rattle.waf_model.specs.PatternPieces.{single_at, after_single, after_first, kind_after, kind_at, member_at};
ghost use Rattle.pattern_read.specs.Seen.{member_spans};

use crate::byte_class::{Span, kind};
use crate::singles::{after, begins, single};

/// A member of a class.
#[derive(Clone, Copy)]
pub(crate) enum Member {
    One(Span),
    Kind(&'static [Span]),
}

/// The range that begins with this byte, or the byte alone.
fn range(first: u8, text: &[u8]) -> Option<(Span, &[u8])>
    ensures value { MatchOption result (after_single first text.now ≡ None) (λ found. after_single first text.now ≡ Some (found.0 ∷ [], found.1.now)) }
    ensures within { MatchOption result (Unit {0}) (λ found. length found.1.now ≤ length text.now) }
{
    if begins(b'-', text) && !begins(b']', after(text)) {
        let (last, rest) = single(after(text))?;
        if first <= last {
            Some(((first, last), rest))
        } else {
            None
        }
    } else {
        Some(((first, first), text))
    }
}

/// A single byte or a range.
fn single_or_range(text: &[u8]) -> Option<(Span, &[u8])>
    ensures value { MatchOption result (after_first (single_at text.now) ≡ None) (λ found. after_first (single_at text.now) ≡ Some (found.0 ∷ [], found.1.now)) }
    ensures shorter { MatchOption result (Unit {0}) (λ found. length found.1.now < length text.now) }
{
    let (first, rest) = single(text)?;
    range(first, rest)
}

/// The kind of bytes whose letter stands at the front.
pub(crate) fn kind_by_letter(text: &[u8]) -> Option<(&'static [Span], &[u8])>
    ensures value { MatchOption result (kind_after text.now ≡ None) (λ found. kind_after text.now ≡ Some (found.0.now, found.1.now)) }
    ensures shorter { MatchOption result (Unit {0}) (λ found. length found.1.now < length text.now) }
{
    let (letter, rest) = text.split_first()?;
    Some((kind(*letter)?, rest))
}

/// A class escape, as `\d`.
fn class_escape(text: &[u8]) -> Option<(&'static [Span], &[u8])>
    ensures value { MatchOption result (kind_at text.now ≡ None) (λ found. kind_at text.now ≡ Some (found.0.now, found.1.now)) }
    ensures shorter { MatchOption result (Unit {0}) (λ found. length found.1.now < length text.now) }
{
    if begins(b'\\', text) {
        kind_by_letter(after(text))
    } else {
        None
    }
}

/// A member of a class, the first or a later one. A bare `-` is one only as the first or the last.
pub(crate) fn next_member(is_first: bool, text: &[u8]) -> Option<(Member, &[u8])>
    ensures value { MatchOption result (member_at is_first text.now ≡ None) (λ found. member_at is_first text.now ≡ Some (member_spans found.0, found.1.now)) }
    ensures shorter { MatchOption result (Unit {0}) (λ found. length found.1.now < length text.now) }
{
    if begins(b'-', text) {
        let rest = after(text);
        return if is_first || begins(b']', rest) {
            Some((Member::One((b'-', b'-')), rest))
        } else {
            None
        };
    }
    if let Some((spans, rest)) = class_escape(text) {
        return Some((Member::Kind(spans), rest));
    }
    let (span, rest) = single_or_range(text)?;
    Some((Member::One(span), rest))
}
