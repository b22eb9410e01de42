//! Lists of numbers.

ghost use Rattle.std.specs.Prelude.{◌≡◌, ◌<◌, ◌≤◌, ◌^◌, ℕ, [], ◌∷◌, ◌++◌, max, length, slice_set, IfOk, OnOk};
ghost use Rattle.byte_automata.specs.Splitting.{list_at};

use sqlite_items::Items;
use std::alloc::Global;
use std::marker::Model;
use waf_base::Memory;

/// Lists of numbers, which are numbered from 0 on.
#[derive(Drop)]
pub(crate) struct Lists {
    alloc: Global,
    lists: Vec<Items<u32>>,
}

impl Model for Lists {
    ghost use Rattle.std.specs.Prelude.{ℕ, List};

    ghost Value = { List (List ℕ) };

    ghost view = { λ l. l.lists.items };
}

impl Lists {
    /// So many empty lists.
    pub(crate) fn new(alloc: Global, count: u32) -> Result<Lists, Memory>
        ensures count { IfOk result (λ lists. length lists ≡ count) }
        ensures empty { IfOk result (λ lists. (list : ℕ) → list_at lists list ≡ []) }
    {
        let mut lists = Lists {
            alloc,
            lists: Vec::new(alloc),
        };
        lists.grow(count)?;
        Ok(lists)
    }

    /// Adds empty lists until there are so many.
    pub(crate) fn grow(&mut self, count: u32) -> Result<(), Memory>
        requires { length self.old ≤ count }
        ensures count { OnOk result (length self.new ≡ count) }
        ensures kept { OnOk result ((list : ℕ) → list_at self.new list ≡ list_at self.old list) }
    {
        for _list in self.lists.len()..count as usize {
            self.lists.push(Items::new(self.alloc))?;
        }
        Ok(())
    }

    /// The numbers of the list.
    pub(crate) fn of(&self, list: u32) -> &[u32]
        requires { list < length self.now }
        ensures { result.now ≡ list_at self.now list }
    {
        self.lists[list as usize].as_slice()
    }

    /// Adds the number at the end of the list.
    pub(crate) fn put(&mut self, list: u32, number: u32) -> Result<(), Memory>
        requires { list < length self.old }
        ensures { OnOk result (self.new ≡ slice_set self.old list (list_at self.old list ++ number ∷ [])) }
    {
        self.lists[list as usize].push(number)?;
        Ok(())
    }
}
