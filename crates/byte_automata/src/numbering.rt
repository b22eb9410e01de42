//! Different things, numbered in the order in which they first came.

ghost use Rattle.std.specs.Prelude.{◌≡◌, ◌<◌, ◌^◌, ◌↔◌, true, [], length, slice_index_or, IfOk, OnErr};
ghost use Rattle.byte_automata.specs.Members.{AreDifferent};
ghost use Rattle.byte_automata.specs.Numbers.{Numbers};

use indexmap::IndexSet;
use std::alloc::Global;
use std::hash::Hash;
use std::marker::Model;
use waf_base::Memory;

/// Different things, each with the number of its place.
#[derive(Drop)]
pub(crate) struct Numbering<T: Eq + Hash> {
    items: IndexSet<T>,
}

impl<T: Eq + Hash> Model for Numbering<T> {
    ghost use Rattle.std.specs.Prelude.{List, ◌<◌, ◌^◌, length};
    ghost use Rattle.std.specs.Coded.{coded_list};

    ghost Value = { List T };

    ghost coded = { coded_list T.code };

    ghost view = { λ n. n.items.keys };

    ghost invariant = { λ n. length n.items.keys < 2 ^ 32 };
}

impl<T: Eq + Hash + Drop> Numbering<T> {
    /// No thing is numbered.
    pub(crate) fn new(alloc: Global) -> Numbering<T>
        ensures { result ≡ [] }
    {
        Numbering {
            items: IndexSet::new(alloc),
        }
    }

    /// The number of the thing, which goes last where it is new. It fails only for want of memory, and then nothing
    /// changes; a number that doesn't fit 32 bits is want of memory too.
    pub(crate) fn number(&mut self, item: T) -> Result<u32, Memory>
        requires { (a b : T) → (T.eq a b ≡ true) ↔ (a ≡ b) }
        ensures ok { IfOk result (λ number. Numbers self.old item number self.new) }
        ensures different { AreDifferent self.new }
        ensures err { OnErr result (self.new ≡ self.old) }
    {
        if self.items.len() >= u32::MAX as usize {
            return Err(Memory);
        }
        let (number, _) = self.items.insert_full(item)?;
        Ok(number as u32)
    }

    /// The things in the order of their numbers.
    pub(crate) fn as_slice(&self) -> &[T]
        ensures { result.now ≡ self.now }
    {
        self.items.as_slice()
    }

    /// How many things are numbered.
    pub(crate) fn len(&self) -> usize
        ensures count { result ≡ length self.now }
        ensures small { result < 2 ^ 32 }
    {
        self.items.len()
    }
}
