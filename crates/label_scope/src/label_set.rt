//! Sets of labels.

ghost use Rattle.std.specs.Prelude.{◌≡◌, [], AllPairs, IfOk, IsTrue, OnErr, OnOk, map};
ghost use Rattle.std.specs.BTreeSet.{insert_key};
ghost use Rattle.std.specs.Cmp.Lexicographic.{slice_cmp};
ghost use Rattle.std.specs.List.{list_any};
ghost use Rattle.std.specs.Ordering.{is_lt, nat_cmp};
ghost use Rattle.waf_model.specs.LabelMatch.{label_holds};

use crate::key_match::is_meant;
use std::alloc::Global;
use std::collections::BTreeSet;
use std::collections::btree_set::Iter;
use std::marker::Model;
use waf_model::{Items, LabelScope, Memory, Text};

/// A set of labels, which contracts see as the list of them, each once, ascending by bytes.
#[derive(Drop)]
pub struct Labels {
    alloc: Global,
    texts: BTreeSet<Vec<u8>>,
}

impl Model for Labels {
    ghost use Rattle.std.specs.Prelude.{List, ℕ, map};

    ghost Value = { List (List ℕ) };

    ghost view = { λ labels. map (λ text. text.items) labels.texts.keys };
}

impl Labels {
    /// No labels, to which others are added.
    pub fn new(alloc: Global) -> Labels
        ensures { result ≡ [] }
    {
        Labels {
            alloc,
            texts: BTreeSet::new(alloc),
        }
    }

    /// Adds the label, unless it is there. It fails only for want of memory, and then nothing is added.
    pub fn add(&mut self, label: Text) -> Result<(), Memory>
        ensures ok { OnOk result (self.new ≡ insert_key (slice_cmp nat_cmp) self.old label) }
        ensures err { OnErr result (self.new ≡ self.old) }
    {
        let text = Vec::from_slice(self.alloc, label.bytes())?;
        self.texts.insert(text)?;
        Ok(())
    }

    /// Whether a label match of that scope and key, in a web ACL or group of that namespace, holds of some label. It
    /// takes no memory.
    pub fn any(&self, scope: LabelScope, key: &Text, namespace: &Text) -> bool
        ensures { result ≡ list_any (label_holds scope key.now namespace.now) self.now }
    {
        for text in self.texts.iter() {
            if is_meant(scope, key.bytes(), namespace.bytes(), text.as_slice()) {
                return true;
            }
        }
        false
    }

    /// The labels, each once, ascending by bytes. It fails only for want of memory.
    pub fn sorted(&self) -> Result<Items<Text>, Memory>
        ensures labels { IfOk result (λ texts. texts ≡ self.now) }
        ensures ascend { AllPairs (λ a b. IsTrue (is_lt (slice_cmp nat_cmp a b))) self.now }
    {
        copied(self.alloc, self.texts.iter())
    }
}

/// Copies of the texts, in their order. It fails only for want of memory.
fn copied(alloc: Global, texts: Iter<'_, Vec<u8>>) -> Result<Items<Text>, Memory>
    ensures { IfOk result (λ copies. copies ≡ map (λ text. text.items) texts.entry) }
{
    let mut copies = Items::new(alloc);
    for text in texts {
        copies.push(Text::of(alloc, text.as_slice())?)?;
    }
    Ok(copies)
}
