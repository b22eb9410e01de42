//! Texts that are cut at a byte.

ghost use Rattle.waf_model.specs.NamedPieces.{arguments_of};
ghost use Rattle.request_parts.specs.PieceViews.{texts};
ghost use Rattle.std.specs.List.{prefix_len};
ghost use Rattle.std.specs.Prelude.{◌≡◌, ◌≤◌, ◌==◌, IfOk, filter, length, map, not};
ghost use Rattle.waf_model.specs.Pieces.{cookies_of, cut, without_spaces as without_spaces_of};

use std::alloc::{AllocError, Global};
use waf_model::Memory;

// The pieces between `&`.
fn cut_at_ampersand(alloc: Global, text: &[u8]) -> Result<Vec<&[u8]>, AllocError>
    ensures { IfOk result (λ pieces. texts pieces.items ≡ cut 38 text.now) }
{
    text.split(|byte| *byte == b'&').collect(alloc)
}

// The pieces between `;`.
fn cut_at_semicolon(alloc: Global, text: &[u8]) -> Result<Vec<&[u8]>, AllocError>
    ensures { IfOk result (λ pieces. texts pieces.items ≡ cut 59 text.now) }
{
    text.split(|byte| *byte == b';').collect(alloc)
}

// The pieces that aren't empty.
fn filled<'a>(alloc: Global, pieces: &[&'a [u8]]) -> Result<Vec<&'a [u8]>, Memory>
    ensures { IfOk result (λ kept. texts kept.items ≡ filter (λ piece. not (length piece == 0)) (texts pieces.now)) }
{
    let mut kept = Vec::new(alloc);
    for piece in pieces {
        if !piece.is_empty() {
            kept.push(*piece)?;
        }
    }
    Ok(kept)
}

// How many spaces the text begins with.
fn leading_spaces(text: &[u8]) -> usize
    ensures value { result ≡ prefix_len (λ b. b == 32) text.now }
    ensures within { result ≤ length text.now }
{
    text.iter().take_while(|b| **b == b' ').count()
}

fn without_spaces(text: &[u8]) -> &[u8]
    ensures { result.now ≡ without_spaces_of text.now }
{
    &text[leading_spaces(text)..]
}

// The pieces without their leading spaces.
fn trimmed<'a>(alloc: Global, pieces: &[&'a [u8]]) -> Result<Vec<&'a [u8]>, Memory>
    ensures { IfOk result (λ rest. texts rest.items ≡ map without_spaces_of (texts pieces.now)) }
{
    let mut rest = Vec::new(alloc);
    for piece in pieces {
        rest.push(without_spaces(piece))?;
    }
    Ok(rest)
}

/// The arguments of a query.
pub(crate) fn argument_pieces(alloc: Global, query: &[u8]) -> Result<Vec<&[u8]>, Memory>
    ensures { IfOk result (λ pieces. texts pieces.items ≡ arguments_of query.now) }
{
    let pieces = cut_at_ampersand(alloc, query)?;
    let arguments = filled(alloc, &pieces)?;
    Ok(arguments)
}

/// The cookies of the value of a `cookie` header.
pub(crate) fn cookie_pieces(alloc: Global, value: &[u8]) -> Result<Vec<&[u8]>, Memory>
    ensures { IfOk result (λ pieces. texts pieces.items ≡ cookies_of value.now) }
{
    let pieces = cut_at_semicolon(alloc, value)?;
    let trimmed = trimmed(alloc, &pieces)?;
    let cookies = filled(alloc, &trimmed)?;
    Ok(cookies)
}
