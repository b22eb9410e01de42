//! Transformations that published encodings decide: URL_DECODE, BASE64_DECODE, MD5.

ghost use Rattle.std.specs.Prelude.{◌≡◌, IfOk};
ghost use Rattle.waf_model.specs.TransformEncodings.{url_decoded as url_decoded_of, base64_decoded as base64_decoded_of, digest as digest_of};

use crate::single_bytes::replaced;
use base64::DecodeAllocError;
use base64::engine::general_purpose::STANDARD;
use md5::{Digest, Md5};
use percent_encoding::percent_decode;
use std::alloc::Global;
use waf_model::Memory;

/// The text with a space for each `+`, and then with the byte of each escape in its place.
#[tactic(auto, unfolding(waf_model::specs::TransformEncodings::url_decoded))]
pub(crate) fn url_decoded(alloc: Global, w: &[u8]) -> Result<Vec<u8>, Memory>
    ensures { IfOk result (λ text. text.items ≡ url_decoded_of w.now) }
{
    let spaced = replaced(alloc, w, b'+', b' ')?;
    let mut text = Vec::with_capacity(alloc, spaced.len())?;
    percent_decode(spaced.as_slice()).append_to(&mut text)?;
    Ok(text)
}

/// The bytes that the text encodes in base64, or the text itself where it encodes none.
#[tactic(auto, unfolding(waf_model::specs::TransformEncodings::base64_decoded, base64::specs::GeneralPurpose::decoded_of))]
pub(crate) fn base64_decoded(alloc: Global, w: &[u8]) -> Result<Vec<u8>, Memory>
    ensures { IfOk result (λ text. text.items ≡ base64_decoded_of w.now) }
{
    match STANDARD.decode(alloc, w) {
        Ok(bytes) => Ok(bytes),
        Err(DecodeAllocError::OutOfMemory) => Err(Memory),
        Err(DecodeAllocError::DecodeError(_)) => Ok(Vec::from_slice(alloc, w)?),
    }
}

/// The 16 bytes of the text's MD5 digest.
#[tactic(auto, unfolding(waf_model::specs::TransformEncodings::digest))]
pub(crate) fn digest(alloc: Global, w: &[u8]) -> Result<Vec<u8>, Memory>
    ensures { IfOk result (λ text. text.items ≡ digest_of w.now) }
{
    let mut hasher = Md5::new();
    hasher.update(w);
    Ok(Vec::from_array(alloc, hasher.finalize())?)
}
