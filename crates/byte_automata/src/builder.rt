//! An automaton in the making.

ghost use Rattle.std.specs.Prelude.{◌≡◌, ◌+◌, ◌<◌, ◌≤◌, ◌↔◌, [], ◌∷◌, ◌++◌, false, length, IfOk, OnOk, OnErr, Err, slice_set, slice_get, slice_index_or};
ghost use Rattle.std.specs.List.{All};
ghost use Rattle.byte_automata.specs.Row.{CoversBytes};
ghost use Rattle.waf_base.specs.declared.refusal.Stop.TheVariants as stops;

use crate::dfa::Dfa;
use crate::edge::Edge;
use crate::state::State;
use sqlite_items::Items;
use std::alloc::Global;
use std::marker::Model;
use waf_base::{Meter, Stop};

/// The states of an automaton in the making, which contracts see as their list.
#[derive(Drop)]
pub struct Builder {
    alloc: Global,
    states: Vec<State>,
}

impl Model for Builder {
    ghost use Rattle.std.specs.Prelude.{List, ◌<◌, ◌^◌, length};
    ghost use Rattle.byte_automata.specs.declared.state.State.{State};

    ghost Value = { List State };

    ghost view = { λ b. b.states.items };

    ghost invariant = { λ b. length b.states.items < 2 ^ 32 };
}

impl Builder {
    /// A builder with no state.
    pub fn new(alloc: Global) -> Builder
        ensures { result ≡ [] }
    {
        Builder {
            alloc,
            states: Vec::new(alloc),
        }
    }

    /// Adds a state with no edges and answers its number, the count of the states before it. It makes one node. Full
    /// comes exactly where the meter is full, and then neither it nor the builder changes; after want of memory the
    /// builder is as it was, and the node may be counted.
    pub fn add(&mut self, accepting: bool, meter: &mut Meter) -> Result<u32, Stop>
        ensures ok { IfOk result (λ number. (number ≡ length self.old)
            × (self.new ≡ self.old ++ (record { accepting = accepting; edges = [] }) ∷ [])
            × (meter.new.made ≡ meter.old.made + 1)) }
        ensures full { (result ≡ Err stops.Full) ↔ (meter.old.made ≡ meter.old.limit) }
        ensures err { OnErr result (self.new ≡ self.old) }
        ensures made { (meter.old.made ≤ meter.new.made) × (meter.new.made ≤ meter.old.made + 1) }
        ensures limit { meter.new.limit ≡ meter.old.limit }
    {
        meter.make()?;
        let Ok(number) = u32::try_from(self.states.len()) else {
            return Err(Stop::Memory);
        };
        if number == u32::MAX {
            return Err(Stop::Memory);
        }
        self.states.push(State {
            accepting,
            edges: Items::new(self.alloc),
        })?;
        Ok(number)
    }

    /// Gives the state these edges, in place of those that it had.
    pub fn edges(&mut self, state: u32, edges: Vec<Edge>)
        requires state { state < length self.old }
        requires edges { CoversBytes edges.items }
        ensures { self.new ≡ slice_set self.old state (record {
          accepting = (slice_index_or self.old state
              (record { accepting = false; edges = [] })).accepting;
          edges = edges.items;
        }) }
    {
        self.states[state as usize].edges = Items::from_vec(edges);
    }

    /// The automaton of the states and edges that were given.
    pub fn finish(self, start: u32) -> Dfa
        requires start { start < length self }
        requires rows { All (λ state. CoversBytes state.edges) self }
        requires targets { All (λ state. All (λ edge. edge.to < length self) state.edges) self }
        ensures { (result.start ≡ start) × (result.states ≡ self) }
    {
        let Builder { alloc: _, states } = self;
        Dfa::of(start, states)
    }
}
