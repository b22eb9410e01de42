//! The labels by which two web ACLs can tell the answers of managed rule groups apart.

ghost use Rattle.label_scope.specs.Vocabulary.{filler, labels_below, labels_meant, labels_of_key, longest_key, put_in_order, vocabulary_of};
ghost use Rattle.std.specs.Cmp.Lexicographic.{slice_cmp};
ghost use Rattle.std.specs.List.{flat_map};
ghost use Rattle.std.specs.Ordering.{is_lt, nat_cmp};
ghost use Rattle.std.specs.Prelude.{◌≡◌, ◌++◌, ◌<◌, ◌^◌, AllPairs, IfOk, IsTrue, OnOk};
ghost use Rattle.waf_model.specs.LabelAgreement.{is_managed_label};
ghost use Rattle.waf_model.specs.LabelMatch.{ended};

use crate::label_keys::{LabelKey, keys_of};
use crate::label_set::Labels;
use std::alloc::Global;
use waf_model::{Bundle, Items, LabelScope, Memory, Text};

/// The labels by which two web ACLs can tell the answers of managed rule groups apart, ascending by bytes, each once: each
/// label that a label key means, and one label below each namespace key, which no label key means. It fails only for want
/// of memory.
pub fn vocabulary(alloc: Global, old: &Bundle, new: &Bundle) -> Result<Items<Text>, Memory>
    ensures labels { IfOk result (λ labels. labels ≡ vocabulary_of old.now new.now) }
    ensures ascend { IfOk result (λ labels. AllPairs (λ a b. IsTrue (is_lt (slice_cmp nat_cmp a b))) labels) }
{
    let keys = keys_of(alloc, old, new)?;
    let more = filler_of(alloc, keys.as_slice())?;
    let mut labels = Labels::new(alloc);
    add_labels(alloc, &mut labels, keys.as_slice(), more.bytes())?;
    labels.sorted()
}

// Letters `x`, one more than the longest key has bytes.
fn filler_of(alloc: Global, keys: &[LabelKey]) -> Result<Text, Memory>
    ensures { IfOk result (λ letters. letters ≡ filler keys.now) }
{
    let count = longest_of(keys) + 1;
    Ok(Text::from_vec(vec![in alloc; b'x'; count]?))
}

// The length of the longest key.
fn longest_of(keys: &[LabelKey]) -> usize
    ensures longest { result ≡ longest_key keys.now }
    ensures bound { result < 2 ^ 63 }
{
    let mut longest = 0;
    for one in keys {
        longest = longest.max(one.key.bytes().len());
    }
    longest
}

// Adds the labels of the keys.
fn add_labels(
    alloc: Global,
    labels: &mut Labels,
    keys: &[LabelKey],
    more: &[u8],
) -> Result<(), Memory>
    ensures { OnOk result (labels.new ≡ put_in_order labels.old (flat_map (labels_of_key more.now) keys.now)) }
{
    for one in keys {
        add_labels_of(alloc, labels, one, more)?;
    }
    Ok(())
}

// Adds those of one key.
fn add_labels_of(
    alloc: Global,
    labels: &mut Labels,
    one: &LabelKey,
    more: &[u8],
) -> Result<(), Memory>
    ensures { OnOk result (labels.new ≡ put_in_order labels.old (labels_of_key more.now one.now)) }
{
    match one.scope {
        LabelScope::Label => add_meant(alloc, labels, one.key.bytes()),
        LabelScope::Namespace => {
            let key = ended_key(alloc, one.key.bytes())?;
            add_below(alloc, labels, key.bytes(), more)
        }
    }
}

// Adds the label that is this key, where it is one of a managed rule group.
fn add_meant(alloc: Global, labels: &mut Labels, key: &[u8]) -> Result<(), Memory>
    ensures { OnOk result (labels.new ≡ put_in_order labels.old (labels_meant key.now)) }
{
    if is_managed(key) {
        labels.add(Text::of(alloc, key)?)
    } else {
        Ok(())
    }
}

// Adds the label that stands for those below the key, where managed rule groups can have such.
fn add_below(alloc: Global, labels: &mut Labels, key: &[u8], more: &[u8]) -> Result<(), Memory>
    ensures { OnOk result (labels.new ≡ put_in_order labels.old (labels_below more.now key.now)) }
{
    if is_managed(key) {
        labels.add(joined(alloc, key, more)?)
    } else if b"awswaf:managed:".starts_with(key) {
        labels.add(joined(alloc, b"awswaf:managed:", more)?)
    } else {
        Ok(())
    }
}

// Whether the text begins as the labels of managed rule groups do.
fn is_managed(text: &[u8]) -> bool
    ensures { result ≡ is_managed_label text.now }
{
    text.starts_with(b"awswaf:managed:")
}

// The key with `:` behind it, unless it ends so.
fn ended_key(alloc: Global, key: &[u8]) -> Result<Text, Memory>
    ensures { IfOk result (λ text. text ≡ ended key.now) }
{
    let mut text = Text::of(alloc, key)?;
    if !key.ends_with(b":") {
        text.push(b":")?;
    }
    Ok(text)
}

// The two texts, one behind the other.
fn joined(alloc: Global, front: &[u8], rest: &[u8]) -> Result<Text, Memory>
    ensures { IfOk result (λ text. text ≡ front.now ++ rest.now) }
{
    let mut text = Text::of(alloc, front)?;
    text.push(rest)?;
    Ok(text)
}
