//! What was read of a group.

ghost use Rattle.std.specs.Prelude.{◌≡◌, [], ◌∷◌, ◌++◌, IfOk};
ghost use Rattle.waf_model.specs.PatternGrammar.{sequence, choice};
ghost use Rattle.pattern_read.specs.Machine.{fresh, settled, with_atom, anchored, counted, barred, closed};

use crate::piece::Times;
use std::alloc::Global;
use waf_model::{Boxed, Items, Memory, Pattern};

/// A set or a group, which a count may follow, and its places.
#[derive(Drop)]
pub(crate) struct Atom {
    pub(crate) pattern: Pattern,
    pub(crate) places: u32,
}

/// What was read of a group, or of the whole pattern.
#[derive(Drop)]
pub(crate) struct Group {
    /// The alternatives before the last bar.
    done: Items<Pattern>,
    /// The items behind it.
    items: Items<Pattern>,
    /// The places of all these, or the greatest number.
    places: u32,
    /// An atom behind them, where a count may follow.
    last: Option<Atom>,
}

/// The pattern of items one after another.
fn sequence_of(mut items: Items<Pattern>) -> Pattern
    ensures { result ≡ sequence items }
{
    match items.len() {
        0 => Pattern::Empty,
        1 => match items.pop() {
            Some(item) => item,
            None => Pattern::Empty,
        },
        _ => Pattern::Seq(items),
    }
}

/// The pattern of alternatives.
fn choice_of(mut parts: Items<Pattern>) -> Pattern
    ensures { result ≡ choice parts }
{
    if parts.len() != 1 {
        return Pattern::Alt(parts);
    }
    match parts.pop() {
        Some(part) => part,
        None => Pattern::Empty,
    }
}

impl Group {
    /// A group of which nothing was read.
    pub(crate) fn new(alloc: Global) -> Group
        ensures { result ≡ fresh }
    {
        Group {
            done: Items::new(alloc),
            items: Items::new(alloc),
            places: 0,
            last: None,
        }
    }

    /// Makes the last atom an item.
    fn settle(self) -> Result<Group, Memory>
        ensures { IfOk result (λ group. group ≡ settled self) }
    {
        let Group {
            done,
            mut items,
            places,
            last,
        } = self;
        match last {
            None => Ok(Group {
                done,
                items,
                places,
                last: None,
            }),
            Some(atom) => {
                items.push(atom.pattern)?;
                Ok(Group {
                    done,
                    items,
                    places: places.saturating_add(atom.places),
                    last: None,
                })
            }
        }
    }

    /// Adds an atom.
    pub(crate) fn add_atom(self, atom: Atom) -> Result<Group, Memory>
        ensures { IfOk result (λ group. group ≡ with_atom self atom.pattern atom.places) }
    {
        let mut group = self.settle()?;
        group.last = Some(atom);
        Ok(group)
    }

    /// Adds an anchor.
    pub(crate) fn add_anchor(self, anchor: Pattern) -> Result<Group, Memory>
        ensures { IfOk result (λ group. group ≡ anchored self anchor) }
    {
        let mut group = self.settle()?;
        group.items.push(anchor)?;
        group.places = group.places.saturating_add(1);
        Ok(group)
    }

    /// Repeats the last atom, where there is one.
    pub(crate) fn add_count(self, alloc: Global, times: Times) -> Result<Option<Group>, Memory>
        ensures { IfOk result (λ group. group ≡ counted self times.least times.most times.factor) }
    {
        let Group {
            done,
            mut items,
            places,
            last,
        } = self;
        let Some(atom) = last else {
            return Ok(None);
        };
        let more = atom.places.saturating_mul(times.factor);
        items.push(Pattern::Repeat {
            inner: Boxed::new(alloc, atom.pattern)?,
            least: times.least,
            most: times.most,
        })?;
        Ok(Some(Group {
            done,
            items,
            places: places.saturating_add(more),
            last: None,
        }))
    }

    /// Begins a further alternative.
    pub(crate) fn add_bar(self, alloc: Global) -> Result<Group, Memory>
        ensures { IfOk result (λ group. group ≡ barred self) }
    {
        let Group {
            mut done,
            items,
            places,
            ..
        } = self.settle()?;
        done.push(sequence_of(items))?;
        Ok(Group {
            done,
            items: Items::new(alloc),
            places,
            last: None,
        })
    }

    /// The pattern and the places of the group.
    pub(crate) fn close(self) -> Result<Atom, Memory>
        ensures { IfOk result (λ atom. atom ≡ closed self) }
    {
        let Group {
            mut done,
            items,
            places,
            ..
        } = self.settle()?;
        done.push(sequence_of(items))?;
        Ok(Atom {
            pattern: choice_of(done),
            places,
        })
    }
}
