//! Transformations of spaces: COMPRESS_WHITE_SPACE, CMD_LINE.

ghost use Rattle.std.specs.Prelude.{◌≡◌, ◌++◌, IfOk, OnOk};
ghost use Rattle.text_transform.specs.CommandLine.{is_mark, is_between, spaced_byte};
ghost use Rattle.waf_model.specs.TransformSpaces.{is_white_space, white_space_compressed as white_space_compressed_of, command_line as command_line_of};

use crate::single_bytes::lower_case;
use std::alloc::Global;
use waf_model::Memory;

/// A tab, a line feed, 11, a form feed, a carriage return, a space or a no-break space of Latin-1.
fn is_white_space(byte: u8) -> bool
    ensures { result ≡ is_white_space byte }
{
    matches!(byte, 9..=13 | b' ' | 160)
}

/// The text with one space for each run of white space.
pub(crate) fn white_space_compressed(alloc: Global, w: &[u8]) -> Result<Vec<u8>, Memory>
    ensures { IfOk result (λ text. text.items ≡ white_space_compressed_of w.now) }
{
    let mut text = Vec::with_capacity(alloc, w.len())?;
    let mut in_run = false;
    for byte in w {
        if !is_white_space(*byte) {
            text.push(*byte)?;
            in_run = false;
        } else if !in_run {
            text.push(b' ')?;
            in_run = true;
        }
    }
    Ok(text)
}

/// A mark that shells take off: `\\`, `"`, `'` or `^`.
fn is_mark(byte: u8) -> bool
    ensures { result ≡ is_mark byte }
{
    matches!(byte, b'\\' | b'"' | b'\'' | b'^')
}

/// A byte between words: a space, `,` or `;`.
fn is_between(byte: u8) -> bool
    ensures { result ≡ is_between byte }
{
    matches!(byte, b' ' | b',' | b';')
}

/// Adds the byte in lower case, and a space before it if there is one that stays there.
fn push_byte(text: &mut Vec<u8>, spaced: bool, byte: u8) -> Result<(), Memory>
    ensures { OnOk result (text.new.items ≡ text.old.items ++ spaced_byte spaced byte) }
{
    if spaced && byte != b'/' && byte != b'(' {
        text.push(b' ')?;
    }
    text.push(lower_case(byte))?;
    Ok(())
}

/// The text without the marks of escapes and quotes, with one space between words, none before `/` and `(`, and in
/// lower case.
pub(crate) fn command_line(alloc: Global, w: &[u8]) -> Result<Vec<u8>, Memory>
    ensures { IfOk result (λ text. text.items ≡ command_line_of w.now) }
{
    let mut text = Vec::with_capacity(alloc, w.len())?;
    // A space is written with the byte behind its run, on which it depends.
    let mut spaced = false;
    for byte in w {
        if is_between(*byte) {
            spaced = true;
        } else if !is_mark(*byte) {
            push_byte(&mut text, spaced, *byte)?;
            spaced = false;
        }
    }
    if spaced {
        text.push(b' ')?;
    }
    Ok(text)
}
