//! Builds the graphs of two revisions of a web ACL and of chains of variables, for bench/decision_graph.sh to time.
//!
//! Each line of the input is a word and a number. `rules 60` prints how many nodes two revisions of 60 rules and their
//! difference take. `chain 20000` prints how many the conjunction of 20,000 variables and its negation take.
#![tactic(auto)]

mod chain;
mod nodes;
mod revisions;

use chain::chain;
use decision_graph::Graph;
use revisions::difference_of_revisions;
use std::alloc::Global;
use std::io;
use waf_base::{Meter, Stop};

/// What a line of the input asks for.
#[derive(Clone, Copy)]
enum Work {
    /// Two revisions of so many rules, and their difference.
    Rules(u32),
    /// A chain of so many variables.
    Chain(u32),
}

/// The work that the line asks for, if it is one.
fn work_of(line: &str) -> Option<Work> {
    let (name, size) = line.split_once(' ')?;
    let size = size.parse::<u32>().ok()?;
    match name {
        "rules" => Some(Work::Rules(size)),
        "chain" => Some(Work::Chain(size)),
        _ => None,
    }
}

/// How many nodes the work takes.
fn nodes_made(alloc: Global, work: Work) -> Result<u32, Stop> {
    let mut graph = Graph::new(alloc);
    let mut meter = Meter::new(u32::MAX);
    match work {
        Work::Rules(rules) => difference_of_revisions(&mut graph, rules, &mut meter)?,
        Work::Chain(depth) => chain(&mut graph, depth, &mut meter)?,
    };
    Ok(meter.made)
}

fn main(rt: HostRuntime) -> io::Result<()> {
    for line in rt.lines(rt.alloc()) {
        match work_of(&line?).map(|work| nodes_made(rt.alloc(), work)) {
            Some(Ok(made)) => println!(rt; "{made}")?,
            Some(Err(_)) => println!(rt; "stopped")?,
            None => println!(rt; "no work")?,
        }
    }
    Ok(())
}
