//! The sizes of classes.

ghost use Rattle.std.specs.Prelude.{◌≡◌, ◌<◌, ◌≤◌, length, slice_index, IfOk, OnOk};

use std::alloc::Global;
use std::marker::Model;
use waf_base::Memory;

/// How many states each class has, and for a class that was split its largest part. The time of splitting rests on them
/// and nothing else: a class may have any of its parts in place of the largest.
#[derive(Drop)]
pub(crate) struct Sizes {
    sizes: Vec<u32>,
    largest: Vec<u32>,
}

impl Model for Sizes {
    ghost use Rattle.std.specs.Prelude.{ℕ, List, ◌≤◌, ◌<◌, length};
    ghost use Rattle.std.specs.List.{All};

    ghost Value = { List ℕ };

    ghost view = { λ s. s.largest.items };

    ghost invariant = { λ s. (length s.largest.items ≤ length s.sizes.items) × All (λ part. part < length s.largest.items) s.largest.items };
}

impl Sizes {
    /// Two classes with no state.
    pub(crate) fn new(alloc: Global) -> Result<Sizes, Memory>
        ensures { IfOk result (λ sizes. length sizes ≡ 2) }
    {
        Ok(Sizes {
            sizes: vec![in alloc; 0; 2]?,
            largest: vec![in alloc; 0; 2]?,
        })
    }

    /// Adds classes with no state until there are so many.
    pub(crate) fn grow(&mut self, count: u32) -> Result<(), Memory>
        requires { length self.old ≤ count }
        ensures { OnOk result (length self.new ≡ count) }
    {
        self.sizes.resize(count as usize, 0)?;
        self.largest.resize(count as usize, 0)?;
        Ok(())
    }

    /// The class has one state more.
    pub(crate) fn add(&mut self, class: u32)
        requires { class < length self.old }
        ensures { self.new ≡ self.old }
    {
        let size = self.sizes[class as usize];
        self.sizes[class as usize] = size.saturating_add(1);
    }

    /// The class has one state less.
    pub(crate) fn remove(&mut self, class: u32)
        requires { class < length self.old }
        ensures { self.new ≡ self.old }
    {
        let size = self.sizes[class as usize];
        self.sizes[class as usize] = size.saturating_sub(1);
    }

    /// The largest part of the class.
    pub(crate) fn largest(&self, class: u32) -> u32
        requires { class < length self.now }
        ensures { result ≡ slice_index self.now class }
    {
        self.largest[class as usize]
    }

    /// Notes the part of the class where it is larger than those parts, numbered from the base on, that were noted
    /// before, and larger than what is left of the class itself.
    pub(crate) fn note(&mut self, class: u32, part: u32, base: u32)
        requires class { class < length self.old }
        requires part { part < length self.old }
        ensures { length self.new ≡ length self.old }
    {
        let noted = self.largest[class as usize];
        let kept = if noted < base { class } else { noted };
        if self.sizes[part as usize] > self.sizes[kept as usize] {
            self.largest[class as usize] = part;
        }
    }
}
