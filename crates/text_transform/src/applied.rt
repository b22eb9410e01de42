//! One transformation of a text, and several in a row.

ghost use Rattle.std.specs.Prelude.{◌≡◌, IfOk};
ghost use Rattle.waf_model.specs.Transformed.{transform, transform_all};

use crate::comments::comments_replaced;
use crate::encodings::{base64_decoded, digest, url_decoded};
use crate::entities::entities_decoded;
use crate::hex_digits::{hex_decoded, sql_hex_decoded};
use crate::paths::path_normalized;
use crate::single_bytes::{lower_cased, nulls_removed, nulls_replaced};
use crate::spaces::{command_line, white_space_compressed};
use std::alloc::Global;
use waf_model::{Memory, Transform};

/// The text after the transformation (AWS WAF Developer Guide, "Text transformations"; what each does is this project's
/// own). The time is in proportion to the text. It fails only for want of memory.
pub fn apply(alloc: Global, t: Transform, w: &[u8]) -> Result<Vec<u8>, Memory>
    ensures { IfOk result (λ text. text.items ≡ transform t w.now) }
{
    match t {
        Transform::KeepAll => Ok(Vec::from_slice(alloc, w)?),
        Transform::Lowercase => lower_cased(alloc, w),
        Transform::RemoveNulls => nulls_removed(alloc, w),
        Transform::ReplaceNulls => nulls_replaced(alloc, w),
        Transform::CompressWhiteSpace => white_space_compressed(alloc, w),
        Transform::ReplaceComments => comments_replaced(alloc, w),
        Transform::CmdLine => command_line(alloc, w),
        Transform::UrlDecode => url_decoded(alloc, w),
        Transform::HexDecode => hex_decoded(alloc, w),
        Transform::Base64Decode => base64_decoded(alloc, w),
        Transform::SqlHexDecode => sql_hex_decoded(alloc, w),
        Transform::HtmlEntityDecode => entities_decoded(alloc, w),
        Transform::NormalizePath => path_normalized(alloc, w),
        Transform::Md5 => digest(alloc, w),
    }
}

/// The text after all the transformations, from the first to the last. The time is in proportion to the text, for each
/// of them. It fails only for want of memory.
pub fn apply_all(alloc: Global, ts: &[Transform], w: &[u8]) -> Result<Vec<u8>, Memory>
    ensures { IfOk result (λ text. text.items ≡ transform_all ts.now w.now) }
{
    let Some((first, others)) = ts.split_first() else {
        return Ok(Vec::from_slice(alloc, w)?);
    };
    let mut text = apply(alloc, *first, w)?;
    for t in others {
        text = apply(alloc, *t, text.as_slice())?;
    }
    Ok(text)
}
