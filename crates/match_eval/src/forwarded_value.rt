//! Whether the addresses of a forwarded header make a statement hold.

ghost use Rattle.match_eval.specs.ForwardedPieces.{IsPieceCounted};
ghost use Rattle.request_parts.specs.PieceViews.{texts};
ghost use Rattle.std.specs.Prelude.{◌≡◌, ◌↔◌, Any, IfOk, IsTrue, Some, take};
ghost use Rattle.waf_model.specs.AddressRange.{IsInSome};
ghost use Rattle.waf_model.specs.ForwardedAddress.{ForwardedHolds, last_of as last_so_many, looked_at as looked_at_of};
ghost use Rattle.waf_model.specs.Pieces.{cut};

use crate::range_cover::RangeCover;
use crate::trimming::trimmed;
use ip_text::read_address;
use std::alloc::{AllocError, Global};
use waf_model::{Forwarded, ForwardedPosition, Memory};

/// How many of the last pieces `ANY` looks at (this project's own).
const MOST_PIECES: usize = 10;

/// Whether a value of the header makes the statement hold (API type `IPSetForwardedIPConfig`): a piece that is looked
/// at is in one of the ranges, or the fallback is MATCH and one is no address. It fails only for want of memory.
pub(crate) fn value_holds(
    alloc: Global,
    cover: &RangeCover<'_>,
    forwarded: &Forwarded,
    value: &[u8],
) -> Result<bool, Memory>
    ensures { IfOk result (λ holds. IsTrue holds ↔ ForwardedHolds cover.now forwarded.now (Some value.now)) }
{
    let pieces = cut_at_comma(alloc, value)?;
    let tried = looked_at(forwarded.position, &pieces);
    Ok(some_counts(cover, forwarded.fallback, tried))
}

/// The pieces between commas, with the blanks around them.
fn cut_at_comma(alloc: Global, value: &[u8]) -> Result<Vec<&[u8]>, AllocError>
    ensures { IfOk result (λ pieces. texts pieces.items ≡ cut 44 value.now) }
{
    value.split(|byte| *byte == b',').collect(alloc)
}

/// The pieces that are looked at.
fn looked_at<'a, 'b>(position: ForwardedPosition, pieces: &'a [&'b [u8]]) -> &'a [&'b [u8]]
    ensures { texts result.now ≡ looked_at_of position (texts pieces.now) }
{
    match position {
        ForwardedPosition::First => first_of(pieces),
        ForwardedPosition::Last => last_of(1, pieces),
        ForwardedPosition::Any => last_of(MOST_PIECES, pieces),
    }
}

fn first_of<'a, 'b>(pieces: &'a [&'b [u8]]) -> &'a [&'b [u8]]
    ensures { texts result.now ≡ take 1 (texts pieces.now) }
{
    &pieces[..pieces.len().min(1)]
}

#[tactic(auto, using(crate::proofs::Forwarding::last_is))]
fn last_of<'a, 'b>(most: usize, pieces: &'a [&'b [u8]]) -> &'a [&'b [u8]]
    ensures { texts result.now ≡ last_so_many most (texts pieces.now) }
{
    &pieces[pieces.len().saturating_sub(most)..]
}

/// Whether some piece counts.
fn some_counts(cover: &RangeCover<'_>, fallback: bool, pieces: &[&[u8]]) -> bool
    ensures { IsTrue result ↔ Any (IsPieceCounted (IsInSome cover.now) fallback) (texts pieces.now) }
{
    pieces.iter().any(|piece| counts(cover, fallback, piece))
}

fn counts(cover: &RangeCover<'_>, fallback: bool, piece: &[u8]) -> bool
    ensures { IsTrue result ↔ IsPieceCounted (IsInSome cover.now) fallback piece.now }
{
    match read_address(trimmed(piece)) {
        Some(address) => cover.has(&address),
        None => fallback,
    }
}
