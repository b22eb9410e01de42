//! Shrinks automata of many states, for bench/byte_automata.sh to time.
//!
//! Each line of the input is a kind of automaton and how many states it has, as `chain 4096` or `random 20000`; the output
//! says how many states the least automaton of its language has.
#![tactic(auto)]

mod automaton;
mod kind;
mod random;
mod row;

use automaton::automaton;
use kind::Kind;
use std::alloc::Global;
use std::io;
use waf_base::Stop;

/// How many states the least automaton of the language has.
fn states_left(alloc: Global, kind: Kind, count: u32) -> Result<u32, Stop> {
    if count == 0 {
        return Ok(0);
    }
    let least = automaton(alloc, kind, count)?.shrink(alloc)?;
    Ok(least.states())
}

/// The kind and the number of states that a line names.
fn asked(line: &str) -> Option<(Kind, u32)> {
    let (kind, count) = line.split_once(' ')?;
    let kind = Kind::of(kind)?;
    let count = count.parse::<u32>().ok()?;
    Some((kind, count))
}

fn main(rt: HostRuntime) -> io::Result<()> {
    for line in rt.lines(rt.alloc()) {
        let line = line?;
        match asked(line.as_str()) {
            Some((kind, count)) => match states_left(rt.alloc(), kind, count) {
                Ok(states) => println!(rt; "{states}")?,
                Err(_) => println!(rt; "memory")?,
            },
            None => println!(rt; "no automaton")?,
        }
    }
    Ok(())
}
