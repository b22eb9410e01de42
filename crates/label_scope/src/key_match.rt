//! Which labels the key of a label match means.

ghost use Rattle.std.specs.Prelude.{◌≡◌, ◌++◌, IfOk};
ghost use Rattle.waf_model.specs.LabelMatch.{full_key, label_holds};

use crate::texts::{begins_with_ended, is_joined};
use std::alloc::Global;
use waf_model::{LabelScope, Memory, Text};

/// Whether a label match of that scope and key, in a web ACL or group of that namespace, holds of the label. It takes no
/// memory.
pub fn matches(scope: LabelScope, key: &Text, namespace: &Text, label: &Text) -> bool
    ensures { result ≡ label_holds scope key.now namespace.now label.now }
{
    is_meant(scope, key.bytes(), namespace.bytes(), label.bytes())
}

/// The same of bytes.
pub(crate) fn is_meant(scope: LabelScope, key: &[u8], namespace: &[u8], label: &[u8]) -> bool
    ensures { result ≡ label_holds scope key.now namespace.now label.now }
{
    let front = front_of(key, namespace);
    match scope {
        LabelScope::Label => is_joined(label, front, key),
        LabelScope::Namespace => begins_with_ended(label, front, key),
    }
}

/// The key, behind the namespace unless it is a whole one. It fails only for want of memory.
pub(crate) fn qualified_key(alloc: Global, key: &Text, namespace: &Text) -> Result<Text, Memory>
    ensures { IfOk result (λ full. full ≡ full_key key.now namespace.now) }
{
    let mut full = Text::of(alloc, front_of(key.bytes(), namespace.bytes()))?;
    full.push(key.bytes())?;
    Ok(full)
}

/// What stands before the key: nothing where it begins `awswaf:`, and else the namespace.
fn front_of<'a>(key: &[u8], namespace: &'a [u8]) -> &'a [u8]
    ensures { result.now ++ key.now ≡ full_key key.now namespace.now }
{
    if key.starts_with(b"awswaf:") {
        &namespace[..0]
    } else {
        namespace
    }
}
