//! The transformation REPLACE_COMMENTS.

ghost use Rattle.std.specs.Prelude.{◌≡◌, ◌≤◌, length, IfOk};
ghost use Rattle.waf_model.specs.TransformComments.{comment_rest, comments_replaced as comments_replaced_of};

use std::alloc::Global;
use waf_model::Memory;

/// How many bytes of a comment stand behind its `/*`: up to and with the first `*/`, or all.
fn comment_rest(behind: &[u8]) -> usize
    ensures count { result ≡ comment_rest behind.now }
    ensures within { result ≤ length behind.now }
{
    let mut rest = behind;
    while let Some((_, next)) = rest.split_first() {
        if rest.starts_with(b"*/") {
            return behind.len() - rest.len() + 2;
        }
        rest = next;
    }
    behind.len()
}

/// The text with one space for each comment.
pub(crate) fn comments_replaced(alloc: Global, w: &[u8]) -> Result<Vec<u8>, Memory>
    ensures { IfOk result (λ text. text.items ≡ comments_replaced_of w.now) }
{
    let mut text = Vec::with_capacity(alloc, w.len())?;
    let mut rest = w;
    while let Some((first, next)) = rest.split_first() {
        if rest.starts_with(b"/*") {
            let behind = &rest[2..];
            text.push(b' ')?;
            rest = &behind[comment_rest(behind)..];
        } else {
            text.push(*first)?;
            rest = next;
        }
    }
    Ok(text)
}
