//! The transformation NORMALIZE_PATH.

ghost use Rattle.std.specs.List.{join_with_byte};
ghost use Rattle.std.specs.Prelude.{◌≡◌, ◌++◌, [], ◌∷◌, IfOk, OnOk, if◌then◌else◌};
ghost use Rattle.text_transform.specs.Segments.{ends_below, texts, with_segment};
ghost use Rattle.waf_model.specs.Pieces.{cut};
ghost use Rattle.waf_model.specs.TransformPaths.{ends_here, is_above, is_here, kept, path_normalized as path_normalized_of};

use std::alloc::{AllocError, Global};
use waf_model::Memory;

/// The segment that names the place itself.
const HERE: &[u8] = b".";

/// The segment that names the place above.
const ABOVE: &[u8] = b"..";

/// Whether the segment names the place itself: it is empty or `.`.
fn is_here(segment: &[u8]) -> bool
    ensures { result ≡ is_here segment.now }
{
    segment == b"".as_slice() || segment == HERE
}

/// Whether the segment names the place above.
fn is_above(segment: &[u8]) -> bool
    ensures { result ≡ is_above segment.now }
{
    segment == ABOVE
}

/// Whether the last segment names the place itself.
fn ends_here(segments: &[&[u8]]) -> bool
    ensures { result ≡ ends_here (texts segments.now) }
{
    match segments.last() {
        Some(last) => is_here(last),
        None => false,
    }
}

/// Whether there is a last segment, and it isn't `..`.
fn ends_below(segments: &[&[u8]]) -> bool
    ensures { result ≡ ends_below (texts segments.now) }
{
    match segments.last() {
        Some(last) => !is_above(last),
        None => false,
    }
}

/// The segments of the text: it is cut at each `/`.
fn segments_of(alloc: Global, w: &[u8]) -> Result<Vec<&[u8]>, AllocError>
    ensures { IfOk result (λ segments. texts segments.items ≡ cut 47 w.now) }
{
    w.split(|byte| *byte == b'/').collect(alloc)
}

/// Keeps the segment, drops it, or lets it take back the last that is kept.
fn keep<'a>(kept: &mut Vec<&'a [u8]>, segment: &'a [u8]) -> Result<(), Memory>
    ensures { OnOk result (texts kept.new.items ≡ with_segment (texts kept.old.items) segment.now) }
{
    if is_here(segment) {
        return Ok(());
    }
    if is_above(segment) && ends_below(kept.as_slice()) {
        kept.pop();
        return Ok(());
    }
    kept.push(segment)?;
    Ok(())
}

/// The segments that are kept.
fn kept_of<'a>(alloc: Global, segments: &[&'a [u8]]) -> Result<Vec<&'a [u8]>, Memory>
    ensures { IfOk result (λ left. texts left.items ≡ kept (texts segments.now)) }
{
    let mut left = Vec::new(alloc);
    for segment in segments {
        keep(&mut left, segment)?;
    }
    Ok(left)
}

/// Adds the segments with `/` between.
fn push_joined(text: &mut Vec<u8>, segments: &[&[u8]]) -> Result<(), Memory>
    ensures { OnOk result (text.new.items ≡ text.old.items ++ join_with_byte 47 (texts segments.now)) }
{
    let Some((first, others)) = segments.split_first() else {
        return Ok(());
    };
    text.extend_from_slice(first)?;
    for segment in others {
        text.push(b'/')?;
        text.extend_from_slice(segment)?;
    }
    Ok(())
}

/// Adds `/` where it is wanted.
fn push_slash(text: &mut Vec<u8>, wanted: bool) -> Result<(), Memory>
    ensures { OnOk result (text.new.items ≡ text.old.items ++ (if wanted then 47 ∷ [] else [])) }
{
    if wanted {
        text.push(b'/')?;
    }
    Ok(())
}

/// The path without segments that name the place itself or that a `..` takes back.
#[tactic(auto, unfolding(waf_model::specs::TransformPaths::path_normalized))]
pub(crate) fn path_normalized(alloc: Global, w: &[u8]) -> Result<Vec<u8>, Memory>
    ensures { IfOk result (λ text. text.items ≡ path_normalized_of w.now) }
{
    let segments = segments_of(alloc, w)?;
    let kept = kept_of(alloc, segments.as_slice())?;
    let mut text = Vec::with_capacity(alloc, w.len())?;
    push_slash(&mut text, w.starts_with(b"/"))?;
    push_joined(&mut text, kept.as_slice())?;
    let open = !kept.is_empty() && ends_here(segments.as_slice());
    push_slash(&mut text, open)?;
    Ok(text)
}
