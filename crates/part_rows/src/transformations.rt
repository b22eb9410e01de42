//! Rows of transformations: their names with a space between two of them, and a text; what becomes of the text.

use std::alloc::Global;
use text_rows::{Kind, unknown};
use text_transform::{apply, apply_all};
use waf_model::{Memory, Text, Transform};

/// Transformations of a text, from the first to the last. One alone goes through the call for one.
pub(crate) struct Transformations;

/// The names of the transformations (API field `Type` of `TextTransformation`).
const NAMES: [(&[u8], Transform); 14] = [
    (b"NONE", Transform::KeepAll),
    (b"LOWERCASE", Transform::Lowercase),
    (b"REMOVE_NULLS", Transform::RemoveNulls),
    (b"REPLACE_NULLS", Transform::ReplaceNulls),
    (b"COMPRESS_WHITE_SPACE", Transform::CompressWhiteSpace),
    (b"REPLACE_COMMENTS", Transform::ReplaceComments),
    (b"CMD_LINE", Transform::CmdLine),
    (b"URL_DECODE", Transform::UrlDecode),
    (b"HEX_DECODE", Transform::HexDecode),
    (b"BASE64_DECODE", Transform::Base64Decode),
    (b"SQL_HEX_DECODE", Transform::SqlHexDecode),
    (b"HTML_ENTITY_DECODE", Transform::HtmlEntityDecode),
    (b"NORMALIZE_PATH", Transform::NormalizePath),
    (b"MD5", Transform::Md5),
];

/// The transformation of that name, if there is one.
fn transform_of(name: &[u8]) -> Option<Transform> {
    for (one, transform) in NAMES.iter() {
        if *one == name {
            return Some(*transform);
        }
    }
    None
}

/// The transformations of these names, with a space between two of them; none where one of the names is none. No
/// bytes are no names.
fn transforms_of(alloc: Global, names: &[u8]) -> Result<Option<Vec<Transform>>, Memory> {
    let mut transforms = Vec::new(alloc);
    if names.is_empty() {
        return Ok(Some(transforms));
    }
    for name in names.split(|byte| *byte == b' ') {
        let Some(transform) = transform_of(name) else {
            return Ok(None);
        };
        transforms.push(transform)?;
    }
    Ok(Some(transforms))
}

impl Kind for Transformations {
    fn answer(&self, alloc: Global, given: &[Text]) -> Result<Vec<Text>, Memory> {
        let [names, text] = given else {
            return unknown(alloc);
        };
        let Some(transforms) = transforms_of(alloc, names.bytes())? else {
            return unknown(alloc);
        };
        let after = match transforms.as_slice() {
            [only] => apply(alloc, *only, text.bytes())?,
            all => apply_all(alloc, all, text.bytes())?,
        };
        let mut fields = Vec::new(alloc);
        fields.push(Text::from_vec(after))?;
        Ok(fields)
    }
}
