//! The automaton of a walk: one state for each place that texts lead to.

ghost use Rattle.std.specs.Prelude.{◌≡◌, ◌+◌, ◌<◌, ◌↔◌, true, ℕ, List, length, slice_index_or, IfOk, IfErr, OnOk};
ghost use Rattle.std.specs.List.{All};
ghost use Rattle.byte_automata.specs.Automaton.{accepts};
ghost use Rattle.waf_base.specs.Makes.{Makes};
ghost use Rattle.byte_automata.specs.Grows.{Grows, Counts, CountsOn};
ghost use Rattle.byte_automata.specs.Members.{AreDifferent};
ghost use Rattle.byte_automata.specs.Numbers.{HasNumber, Numbers};
ghost use Rattle.byte_automata.specs.Row.{CoversBytes, target};
ghost use Rattle.byte_automata.specs.Texts.{IsText};
ghost use Rattle.byte_automata.specs.Walk.{led, IsReached, LedAlike};

use crate::dfa::Dfa;
use crate::edge::Edge;
use crate::numbering::Numbering;
use crate::renumbered::push_state;
use crate::row::joined_row;
use crate::state::State;
use crate::walk::Walk;
use sqlite_items::Items;
use std::alloc::Global;
use std::hash::Hash;
use waf_base::{Memory, Meter, Stop};

/// The automaton of the texts that lead to an accepting place. It makes one node for each place that texts of bytes lead
/// to. Full comes exactly where there are more such places than nodes were left at entry, and leaves the meter full;
/// after want of memory at most as many nodes are counted. Neighbouring bytes that lead to one place are one edge.
pub fn walked<P: Eq + Hash + Drop, W: Walk<P>>(
    alloc: Global,
    walk: &W,
    meter: &mut Meter,
) -> Result<Dfa, Stop>
    requires same { (a b : P) → (P.eq a b ≡ true) ↔ (a ≡ b) }
    ensures language { IfOk result (λ dfa. (text : List ℕ) → IsText text →
        accepts dfa text ≡ W.accepting walk.now (led (W.after walk.now) (W.start walk.now) text)) }
    ensures nodes { Makes (LedAlike (W.start walk.now) (W.after walk.now)) IsText result meter.old meter.new }
    ensures states { IfOk result (λ dfa. meter.new.made ≡ meter.old.made + length dfa.states) }
{
    let mut places = Numbering::new(alloc);
    let first = match walk.first(alloc) {
        Ok(first) => first,
        Err(Memory) => return Err(Stop::Memory),
    };
    if let Err(stop) = reach(&mut places, meter, first) {
        return Err(stop);
    }
    let mut states = Vec::new(alloc);
    'places: while states.len() < places.len() {
        let number = states.len();
        let accepting = walk.accepts(&places.as_slice()[number]);
        let edges = match edges_of_place(alloc, walk, number, &mut places, meter) {
            Ok(edges) => edges,
            Err(stop) => return Err(stop),
        };
        let state = State {
            accepting,
            edges: Items::from_vec(edges),
        };
        match push_state(&mut states, state) {
            Ok(()) => {}
            Err(Memory) => return Err(Stop::Memory),
        }
    }
    Ok(Dfa::of(0, states))
}

/// The edges of the place of that number: each byte leads to the number of the place that it leads to.
fn edges_of_place<P: Eq + Hash + Drop, W: Walk<P>>(
    alloc: Global,
    walk: &W,
    number: usize,
    places: &mut Numbering<P>,
    meter: &mut Meter,
) -> Result<Vec<Edge>, Stop>
    requires same { (a b : P) → (P.eq a b ≡ true) ↔ (a ≡ b) }
    requires number { number < length places.old }
    requires reached { All (IsReached (W.start walk.now) (W.after walk.now)) places.old }
    ensures covers { IfOk result (λ row. CoversBytes row.items) }
    ensures targets { IfOk result (λ row. All (λ edge. edge.to < length places.new) row.items) }
    ensures leads { IfOk result (λ row. (byte : ℕ) → byte < 256 → HasNumber places.new
        (W.after walk.now (slice_index_or places.old number (W.start walk.now)) byte) (target row.items byte)) }
    ensures counts { OnOk result (Counts places.old places.new meter.old.made meter.new.made) }
    ensures stop { IfErr result (λ stop.
        CountsOn stop places.old places.new meter.old.made meter.new.made meter.new.limit) }
    ensures grown { Grows (λ more. (byte : ℕ) × (byte < 256)
        × (more ≡ W.after walk.now (slice_index_or places.old number (W.start walk.now)) byte)) places.old places.new }
    ensures different { AreDifferent places.old → AreDifferent places.new }
    ensures limit { meter.new.limit ≡ meter.old.limit }
{
    let mut row = Vec::new(alloc);
    let mut low = 0;
    'runs: while low < 256 {
        let place = &places.as_slice()[number];
        let last = walk.run_end(place, low as u8);
        let next = walk.step(alloc, place, low as u8)?;
        let to = reach(places, meter, next)?;
        row.push(Edge { last, to })?;
        low = u32::from(last) + 1;
    }
    Ok(joined_row(alloc, row.as_slice())?)
}

/// The number of the place, which makes a node where the place is new.
fn reach<P: Eq + Hash + Drop>(
    places: &mut Numbering<P>,
    meter: &mut Meter,
    place: P,
) -> Result<u32, Stop>
    requires same { (a b : P) → (P.eq a b ≡ true) ↔ (a ≡ b) }
    ensures ok { IfOk result (λ number. Numbers places.old place number places.new) }
    ensures counts { OnOk result (Counts places.old places.new meter.old.made meter.new.made) }
    ensures stop { IfErr result (λ stop.
        CountsOn stop places.old places.new meter.old.made meter.new.made meter.new.limit) }
    ensures grown { Grows (λ more. more ≡ place) places.old places.new }
    ensures different { AreDifferent places.old → AreDifferent places.new }
    ensures limit { meter.new.limit ≡ meter.old.limit }
{
    let known = places.len();
    let number = places.number(place)?;
    if number as usize == known {
        meter.make()?;
    }
    Ok(number)
}
