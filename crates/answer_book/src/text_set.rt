//! Sets of texts.

ghost use Rattle.answer_book.specs.Keys.{text_order};
ghost use Rattle.std.specs.BTreeSet.{insert_key};
ghost use Rattle.std.specs.List.Sorted.{IsStrictlySortedBy};
ghost use Rattle.std.specs.Prelude.{◌≡◌, [], IfOk, OnErr, OnOk};

use std::alloc::Global;
use std::collections::BTreeSet;
use std::marker::Model;
use waf_model::{Items, Memory, Text};

/// A set of texts, which contracts see as the list of them, each once, ascending by bytes.
#[derive(Drop)]
pub(crate) struct TextSet {
    alloc: Global,
    texts: BTreeSet<Vec<u8>>,
}

impl Model for TextSet {
    ghost use Rattle.std.specs.Prelude.{List, ℕ, map};

    ghost Value = { List (List ℕ) };

    ghost view = { λ set. map (λ text. text.items) set.texts.keys };
}

impl TextSet {
    /// No texts, to which others are added.
    pub(crate) fn new(alloc: Global) -> TextSet
        ensures { result ≡ [] }
    {
        TextSet {
            alloc,
            texts: BTreeSet::new(alloc),
        }
    }

    /// Adds the text, unless it is there. It fails only for want of memory.
    pub(crate) fn add(&mut self, text: &Text) -> Result<(), Memory>
        ensures { OnOk result (self.new ≡ insert_key text_order self.old text.now) }
    {
        let bytes = Vec::from_slice(self.alloc, text.bytes())?;
        self.texts.insert(bytes)?;
        Ok(())
    }

    /// The texts, each once, ascending by bytes. It fails only for want of memory.
    pub(crate) fn in_order(&self) -> Result<Items<Text>, Memory>
        ensures texts { IfOk result (λ texts. texts ≡ self.now) }
        ensures ascend { IsStrictlySortedBy text_order self.now }
    {
        let mut texts = Items::new(self.alloc);
        for text in self.texts.iter() {
            texts.push(Text::of(self.alloc, text.as_slice())?)?;
        }
        Ok(texts)
    }
}
