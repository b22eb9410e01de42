//! A finished automaton.

ghost use Rattle.std.specs.Prelude.{◌≡◌, ℕ, List, map, not, ◌<◌, ◌≤◌, ◌^◌, ◌↔◌, length, IsTrue, IfOk, OnOk, OnErr};
ghost use Rattle.std.specs.List.{All};

use crate::edge::Edge;
use crate::flip::flip_all;
use crate::renumbered::push_state;
use crate::row::{run_end_of, target_of};
use crate::state::State;
use sqlite_items::Items;
use std::alloc::Global;
use std::marker::Model;
use waf_base::Memory;

/// A finished automaton over bytes, which contracts see as its start state and the list of its states. Each state has
/// edges that cover all bytes and lead to states of the automaton.
#[derive(Debug, Drop)]
pub struct Dfa {
    start: u32,
    states: Vec<State>,
}

impl Model for Dfa {
    ghost use Rattle.byte_automata.specs.Automaton.{Automaton, IsWhole};

    ghost Value = { Automaton };

    ghost view = { λ d. record { start = d.start; states = d.states.items } };

    ghost invariant = { λ d. IsWhole (record { start = d.start; states = d.states.items }) };
}

impl Dfa {
    ghost use Rattle.byte_automata.specs.Row.{CoversBytes, target};
    ghost use Rattle.byte_automata.specs.Automaton.{IsWhole, state_at, next, ends, accepts, flipped};

    /// The automaton of these states.
    pub(crate) fn of(start: u32, states: Vec<State>) -> Dfa
        requires { IsWhole (record { start = start; states = states.items }) }
        ensures { (result.start ≡ start) × (result.states ≡ states.items) }
    {
        Dfa { start, states }
    }

    /// How many states there are; they are numbered from 0 on. Its second clause is what holds of every automaton.
    pub fn states(&self) -> u32
        ensures count { result ≡ length self.now.states }
        ensures whole { IsWhole self.now }
    {
        self.states.len() as u32
    }

    /// The start state. Its second clause is what holds of every automaton.
    pub fn start(&self) -> u32
        ensures start { result ≡ self.now.start }
        ensures whole { IsWhole self.now }
    {
        self.start
    }

    /// A text that ends in the state is accepted.
    pub fn accepting(&self, state: u32) -> bool
        requires { state < length self.now.states }
        ensures { result ≡ (state_at self.now state).accepting }
    {
        self.states[state as usize].accepting
    }

    /// The edges of the state, in ascending order of their bytes. Together they cover all bytes.
    pub fn edges_of(&self, state: u32) -> &[Edge]
        requires { state < length self.now.states }
        ensures edges { result.now ≡ (state_at self.now state).edges }
        ensures covers { CoversBytes result.now }
        ensures targets { All (λ edge. edge.to < length self.now.states) result.now }
    {
        self.states[state as usize].edges.as_slice()
    }

    /// The state that the byte leads to from the state.
    pub fn follow(&self, state: u32, byte: u8) -> u32
        requires { state < length self.now.states }
        ensures next { result ≡ next self.now state byte }
        ensures within { result < length self.now.states }
    {
        target_of(self.edges_of(state), byte)
    }

    /// The last byte of the run in which the byte stands: each byte from it up to there leads from the state where it
    /// leads.
    pub fn run_end(&self, state: u32, byte: u8) -> u8
        requires { state < length self.now.states }
        ensures within { byte ≤ result }
        ensures alike { (other : ℕ) → byte ≤ other → other ≤ result → next self.now state other ≡ next self.now state byte }
    {
        run_end_of(self.edges_of(state), byte)
    }

    /// The automaton accepts the text: from the start state, the edges of its bytes lead to an accepting state.
    pub fn accepts(&self, text: &[u8]) -> bool
        ensures accepted { result ≡ accepts self.now text.now }
    {
        let mut state = self.start;
        for byte in text {
            state = self.follow(state, *byte);
        }
        self.accepting(state)
    }

    /// The automaton of the texts that this one doesn't accept, as `complement` gives it, beside this one. It fails only
    /// for want of memory.
    pub fn complemented(&self, alloc: Global) -> Result<Dfa, Memory>
        ensures language { IfOk result (λ others. (text : List ℕ) → accepts others text ≡ not (accepts self.now text)) }
        ensures start { IfOk result (λ others. others.start ≡ self.now.start) }
        ensures states { IfOk result (λ others. others.states ≡ map flipped self.now.states) }
    {
        let end = self.states();
        let mut states = Vec::new(alloc);
        'states: for state in 0..end {
            let edges = Vec::from_slice(alloc, self.edges_of(state))?;
            let flipped = State {
                accepting: !self.accepting(state),
                edges: Items::from_vec(edges),
            };
            push_state(&mut states, flipped)?;
        }
        Ok(Dfa::of(self.start(), states))
    }

    /// The automaton of the texts that this one doesn't accept: the same states and edges, where each state accepts
    /// that didn't.
    pub fn complement(self) -> Dfa
        ensures language { (text : List ℕ) → accepts result text ≡ not (accepts self text) }
        ensures start { result.start ≡ self.start }
        ensures states { result.states ≡ map flipped self.states }
    {
        let Dfa { start, mut states } = self;
        flip_all(&mut states);
        Dfa { start, states }
    }
}
