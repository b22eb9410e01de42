//! The automata that are shrunk.

ghost use Rattle.std.specs.Prelude.{◌<◌};

use crate::kind::Kind;
use crate::random::Random;
use crate::row::{edges_of_row, row_of};
use byte_automata::{Builder, Dfa};
use std::alloc::Global;
use waf_base::{Meter, Stop};

/// The automaton of the kind of so many states, which starts at the first.
pub(crate) fn automaton(alloc: Global, kind: Kind, count: u32) -> Result<Dfa, Stop>
    requires { 0 < count }
{
    let mut meter = Meter::new(count);
    let mut random = Random { seed: 1 };
    let mut builder = Builder::new(alloc);
    for state in 0..count {
        let row = row_of(kind, state, count, &mut random);
        let number = builder.add(row.accepting, &mut meter)?;
        builder.edges(number, edges_of_row(alloc, row, count)?);
    }
    Ok(builder.finish(0))
}
