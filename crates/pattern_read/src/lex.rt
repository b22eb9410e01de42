//! The piece at the front of a text.

ghost use Rattle.std.specs.Prelude.{◌≡◌, ◌<◌, ◌≤◌, MatchOption, IfOk, length};
ghost use Rattle.waf_model.specs.PatternPieces.{set, escape_set_at, atom_at, group_at, count_or_atom_at, piece_at, count, without_lazy};
ghost use Rattle.pattern_read.specs.Seen.{piece_of};

use crate::byte_class::set as set_of;
use crate::class::class;
use crate::counts::{braces, past_lazy};
use crate::members::kind_by_letter;
use crate::piece::{Piece, Times};
use crate::singles::{after, begins, escape};
use std::alloc::Global;
use waf_model::{ByteSet, Memory};

/// The set of an escape, after its backslash.
fn escape_set(fold: bool, text: &[u8]) -> Option<(ByteSet, &[u8])>
    ensures value { MatchOption result (escape_set_at fold text.now ≡ None) (λ found. escape_set_at fold text.now ≡ Some (set found.0, found.1.now)) }
    ensures within { MatchOption result (Unit {0}) (λ found. length found.1.now ≤ length text.now) }
{
    if let Some((spans, rest)) = kind_by_letter(text) {
        return Some((set_of(spans, fold, false), rest));
    }
    let (byte, rest) = escape(text)?;
    Some((set_of(&[(byte, byte)], fold, false), rest))
}

/// The set of a byte, an escape or a class, behind its first byte.
fn atom(
    alloc: Global,
    fold: bool,
    first: u8,
    text: &[u8],
) -> Result<Option<(ByteSet, &[u8])>, Memory>
    ensures value { IfOk result (λ found. MatchOption found (atom_at fold first text.now ≡ None) (λ f. atom_at fold first text.now ≡ Some (set f.0, f.1.now))) }
    ensures within { IfOk result (λ found. MatchOption found (Unit {0}) (λ f. length f.1.now ≤ length text.now)) }
{
    match first {
        b'.' => Ok(Some((set_of(&[(0, 9), (11, 255)], fold, false), text))),
        b'[' => class(alloc, fold, text),
        b'\\' => Ok(escape_set(fold, text)),
        32..=126 => Ok(Some((set_of(&[(first, first)], fold, false), text))),
        _ => Ok(None),
    }
}

/// A `(`, behind it: one that is followed by `?` is read as `(?:` alone.
fn group(text: &[u8]) -> Option<(Piece, &[u8])>
    ensures value { MatchOption result (group_at text.now ≡ None) (λ found. group_at text.now ≡ Some (piece_of found.0, found.1.now)) }
    ensures within { MatchOption result (Unit {0}) (λ found. length found.1.now ≤ length text.now) }
{
    if !begins(b'?', text) {
        return Some((Piece::Open, text));
    }
    let rest = after(text);
    if begins(b':', rest) {
        Some((Piece::Open, after(rest)))
    } else {
        None
    }
}

/// A count by one sign, behind it.
fn sign(least: u32, most: Option<u32>, text: &[u8]) -> (Piece, &[u8])
    ensures value { (piece_of result.0 ≡ count least most 1) × (result.1.now ≡ without_lazy text.now) }
    ensures within { length result.1.now ≤ length text.now }
{
    let times = Times {
        least,
        most,
        factor: 1,
    };
    (Piece::Count(times), past_lazy(text))
}

/// A count or an atom, behind its first byte.
fn count_or_atom(
    alloc: Global,
    fold: bool,
    first: u8,
    text: &[u8],
) -> Result<Option<(Piece, &[u8])>, Memory>
    ensures value { IfOk result (λ found. MatchOption found (count_or_atom_at fold first text.now ≡ None) (λ f. count_or_atom_at fold first text.now ≡ Some (piece_of f.0, f.1.now))) }
    ensures within { IfOk result (λ found. MatchOption found (Unit {0}) (λ f. length f.1.now ≤ length text.now)) }
{
    match first {
        b'*' => Ok(Some(sign(0, None, text))),
        b'+' => Ok(Some(sign(1, None, text))),
        b'?' => Ok(Some(sign(0, Some(1), text))),
        b'{' => match braces(text) {
            Some((times, rest)) => Ok(Some((Piece::Count(times), rest))),
            None => Ok(None),
        },
        _ => match atom(alloc, fold, first, text)? {
            Some((bytes, rest)) => Ok(Some((Piece::Set(bytes), rest))),
            None => Ok(None),
        },
    }
}

/// The piece at the front of a text, and what follows it.
pub(crate) fn next_piece(
    alloc: Global,
    fold: bool,
    text: &[u8],
) -> Result<Option<(Piece, &[u8])>, Memory>
    ensures value { IfOk result (λ found. MatchOption found (piece_at fold text.now ≡ None) (λ f. piece_at fold text.now ≡ Some (piece_of f.0, f.1.now))) }
    ensures shorter { IfOk result (λ found. MatchOption found (Unit {0}) (λ f. length f.1.now < length text.now)) }
{
    let Some((first, rest)) = text.split_first() else {
        return Ok(None);
    };
    match *first {
        b'(' => Ok(group(rest)),
        b')' => Ok(Some((Piece::Close, rest))),
        b'|' => Ok(Some((Piece::Bar, rest))),
        b'^' => Ok(Some((Piece::Start, rest))),
        b'$' => Ok(Some((Piece::Final, rest))),
        _ => count_or_atom(alloc, fold, *first, rest),
    }
}
