//! Classes in brackets.

ghost use Rattle.std.specs.Prelude.{◌≡◌, ◌≤◌, ◌++◌, [], MatchOption, OnOk, IfOk, length, true, Bool};
ghost use Rattle.waf_model.specs.PatternPieces.{members_at, class_set, class_at, set};
ghost use Rattle.pattern_read.specs.Seen.{member_spans};

use crate::byte_class::{Span, set as set_of};
use crate::members::{Member, next_member};
use crate::singles::{after, begins};
use std::alloc::Global;
use waf_model::{ByteSet, Items, Memory};

/// Adds the spans of a member.
fn add(alloc: Global, spans: &mut Items<Span>, member: Member) -> Result<(), Memory>
    ensures { OnOk result (spans.new ≡ spans.old ++ member_spans member) }
{
    match member {
        Member::One(span) => spans.push(span)?,
        Member::Kind(more) => spans.append(Items::from_slice(alloc, more)?)?,
    }
    Ok(())
}

/// Adds the spans of the members up to the bracket that closes the class, and gives the text behind it.
fn members<'a>(
    alloc: Global,
    text: &'a [u8],
    spans: &mut Items<Span>,
) -> Result<Option<&'a [u8]>, Memory>
    requires { spans.old ≡ [] }
    ensures value { IfOk result (λ found. MatchOption found (members_at (length text.now) true text.now ≡ None) (λ rest. members_at (length text.now) true text.now ≡ Some (spans.new, rest.now))) }
    ensures within { IfOk result (λ found. MatchOption found (Unit {0}) (λ rest. length rest.now ≤ length text.now)) }
{
    let mut rest = text;
    let mut is_first = true;
    while is_first || !begins(b']', rest) {
        let Some((member, next)) = next_member(is_first, rest) else {
            return Ok(None);
        };
        add(alloc, spans, member)?;
        rest = next;
        is_first = false;
    }
    Ok(Some(after(rest)))
}

/// The set of a class, after its opening bracket and its `^`.
fn class_body(
    alloc: Global,
    fold: bool,
    negated: bool,
    text: &[u8],
) -> Result<Option<(ByteSet, &[u8])>, Memory>
    ensures value { IfOk result (λ found. MatchOption found (class_set fold negated (members_at (length text.now) true text.now) ≡ None) (λ f. class_set fold negated (members_at (length text.now) true text.now) ≡ Some (set f.0, f.1.now))) }
    ensures within { IfOk result (λ found. MatchOption found (Unit {0}) (λ f. length f.1.now ≤ length text.now)) }
{
    let mut spans = Items::new(alloc);
    let Some(rest) = members(alloc, text, &mut spans)? else {
        return Ok(None);
    };
    Ok(Some((set_of(spans.as_slice(), fold, negated), rest)))
}

/// The set of a class, after its opening bracket.
pub(crate) fn class(
    alloc: Global,
    fold: bool,
    text: &[u8],
) -> Result<Option<(ByteSet, &[u8])>, Memory>
    ensures value { IfOk result (λ found. MatchOption found (class_at fold text.now ≡ None) (λ f. class_at fold text.now ≡ Some (set f.0, f.1.now))) }
    ensures within { IfOk result (λ found. MatchOption found (Unit {0}) (λ f. length f.1.now ≤ length text.now)) }
{
    if begins(b'^', text) {
        class_body(alloc, fold, true, after(text))
    } else {
        class_body(alloc, fold, false, text)
    }
}
