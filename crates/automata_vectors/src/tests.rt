//! Automata of two states against plain definitions, and a chain of more states than 16 bits number.

ghost use Rattle.std.specs.Prelude.{◌≡◌, ◌<◌, length, IfOk};
ghost use Rattle.std.specs.List.{All};
ghost use Rattle.byte_automata.specs.Row.{CoversBytes};

use byte_automata::{Builder, Dfa, Edge};
use std::alloc::Global;
use std::process::Abort;
use std::test::Fail;
use waf_base::{Memory, Meter, Stop};

/// The edges that lead the bytes up to the slash to one state, and the others to another.
fn two_edges(alloc: Global, low: u32, high: u32, count: u32) -> Result<Vec<Edge>, Memory>
    requires { (low < count) × (high < count) }
    ensures covers { IfOk result (λ edges. CoversBytes edges.items) }
    ensures targets { IfOk result (λ edges. All (λ edge. edge.to < count) edges.items) }
{
    Ok(vec![in alloc;
        Edge {
            last: b'/',
            to: low
        },
        Edge {
            last: 255,
            to: high
        },
    ]?)
}

/// The automaton in which just one state accepts, from where two edges lead to these states.
fn automaton(rt: &impl Abort, alloc: Global, rows: &[[u32; 2]], end: usize) -> Result<Dfa, Stop> {
    let mut builder = Builder::new(alloc);
    assert!(rt; !rows.is_empty() && rows.len() < 100000);
    let count = rows.len() as u32;
    let mut meter = Meter::new(count);
    for i in 0..rows.len() {
        let [low, high] = rows[i];
        assert!(rt; low < count && high < count);
        let state = builder.add(i == end, &mut meter)?;
        builder.edges(state, two_edges(alloc, low, high, count)?);
    }
    Ok(builder.finish(0))
}

#[test]
fn automata_of_two_states_meet_plain_definitions(rt: HostRuntime) -> Result<(), Fail> {
    for number in 0..16 {
        let rows = [[number % 2, number / 2 % 2], [number / 4 % 2, number / 8]];
        let one = automaton(&rt, rt.alloc(), &rows, 1)?;
        let other = automaton(&rt, rt.alloc(), &[rows[1], rows[0]], 1)?.complement();
        let both = one.meet(rt.alloc(), &other, &mut Meter::new(4))?;
        let left = one.without(rt.alloc(), &other, &mut Meter::new(4))?;
        let again = both.complemented(rt.alloc())?.complement();
        assert!(rt; both.key(rt.alloc())? == again.key(rt.alloc())?);
        let least = both.shrink(rt.alloc())?;
        let shortest = one.shortest(rt.alloc())?;
        let mut first = None;
        for text in ["", "\0", "0", "\0\0", "\00", "0\0", "00"] {
            let text = text.as_bytes();
            let accepted = one.accepts(text);
            assert_eq!(rt; least.accepts(text), accepted && other.accepts(text));
            assert_eq!(rt; left.accepts(text), accepted && !other.accepts(text));
            if accepted && first.is_none() {
                first = Some(text);
            }
        }
        assert!(rt; first == shortest.as_ref().map(|text| text.as_slice()));
    }
    Ok(())
}

#[test]
fn a_chain_of_many_states_keeps_them(rt: HostRuntime) -> Result<(), Fail> {
    let mut rows = Vec::new(rt.alloc());
    for next in 1..65538 {
        rows.push([next, next])?;
    }
    rows.push([65537, 65537])?;
    let least = automaton(&rt, rt.alloc(), rows.as_slice(), 65536)?.shrink(rt.alloc())?;
    assert_eq!(rt; least.states(), 65538);
    let shortest = least.shortest(rt.alloc())?.ok_or("no text")?;
    assert_eq!(rt; shortest.len(), 65536);
    Ok(())
}
