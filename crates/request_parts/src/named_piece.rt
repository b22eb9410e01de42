//! Query arguments and cookies with their names and values.

ghost use Rattle.waf_model.specs.NamedPieces.{arguments_of, name_of as name_in, value_of as value_in};
ghost use Rattle.request_parts.specs.PieceViews.{named as named_as, texts};
ghost use Rattle.std.specs.List.{position_or_len};
ghost use Rattle.std.specs.Prelude.{◌≡◌, ◌≤◌, ◌==◌, IfOk, length, map};
ghost use Rattle.waf_model.specs.Pieces.{cookies_of};

use crate::pieces::{argument_pieces, cookie_pieces};
use std::alloc::Global;
use waf_model::{Items, Memory, Text};

/// The name and the value of a query argument or a cookie.
#[derive(Debug, Drop)]
pub struct NamedPiece {
    /// What stands before the first `=`; all where there is none.
    pub name: Text,
    /// What stands behind the first `=`; empty where there is none.
    pub value: Text,
}

// How many bytes stand before the first `=`.
fn name_length(piece: &[u8]) -> usize
    ensures value { result ≡ position_or_len (λ b. b == 61) piece.now }
    ensures within { result ≤ length piece.now }
{
    piece.iter().take_while(|b| **b != b'=').count()
}

/// The name of a piece.
pub(crate) fn name_of(piece: &[u8]) -> &[u8]
    ensures { result.now ≡ name_in piece.now }
{
    &piece[..name_length(piece)]
}

/// The value of a piece.
pub(crate) fn value_of(piece: &[u8]) -> &[u8]
    ensures { result.now ≡ value_in piece.now }
{
    let end = name_length(piece);
    if end == piece.len() {
        return &piece[end..];
    }
    &piece[end + 1..]
}

fn named(alloc: Global, piece: &[u8]) -> Result<NamedPiece, Memory>
    ensures { IfOk result (λ named. named ≡ named_as piece.now) }
{
    let name = Text::of(alloc, name_of(piece))?;
    let value = Text::of(alloc, value_of(piece))?;
    Ok(NamedPiece { name, value })
}

fn all_named(alloc: Global, pieces: &[&[u8]]) -> Result<Items<NamedPiece>, Memory>
    ensures { IfOk result (λ all. all ≡ map named_as (texts pieces.now)) }
{
    let mut all = Items::new(alloc);
    for piece in pieces {
        all.push(named(alloc, piece)?)?;
    }
    Ok(all)
}

/// The arguments of a query, in order: the pieces between `&` that aren't empty. It fails only for want of memory.
pub fn arguments(alloc: Global, query: &[u8]) -> Result<Items<NamedPiece>, Memory>
    ensures { IfOk result (λ arguments. arguments ≡ map named_as (arguments_of query.now)) }
{
    let pieces = argument_pieces(alloc, query)?;
    let arguments = all_named(alloc, &pieces)?;
    Ok(arguments)
}

/// The cookies of the value of a `cookie` header, in order: the pieces between `;`, without their leading spaces, that
/// aren't empty then. It fails only for want of memory.
pub fn cookies(alloc: Global, value: &[u8]) -> Result<Items<NamedPiece>, Memory>
    ensures { IfOk result (λ cookies. cookies ≡ map named_as (cookies_of value.now)) }
{
    let pieces = cookie_pieces(alloc, value)?;
    let cookies = all_named(alloc, &pieces)?;
    Ok(cookies)
}
