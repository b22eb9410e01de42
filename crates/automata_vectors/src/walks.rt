//! A small walk, whose places are truth values, and its automaton.

ghost use Rattle.std.specs.Prelude.{◌==◌, if◌then◌else◌, not, false};

use byte_automata::{Walk, walked};
use std::alloc::Global;
use std::test::Fail;
use waf_base::{Memory, Meter, Stop};

/// The texts in which a byte stands an even number of times. A place is whether it came an odd number of times so far.
#[derive(Drop)]
struct EvenTimes {
    byte: u8,
}

impl Walk<bool> for EvenTimes {
    ghost start = { λ walk. false };

    ghost after = { λ walk place byte. if byte == walk.byte then not place else place };

    ghost accepting = { λ walk place. not place };

    fn first(&self, _alloc: Global) -> Result<bool, Memory> {
        Ok(false)
    }

    fn accepts(&self, place: &bool) -> bool {
        !*place
    }

    fn run_end(&self, _place: &bool, byte: u8) -> u8 {
        byte
    }

    fn step(&self, _alloc: Global, place: &bool, byte: u8) -> Result<bool, Memory> {
        Ok(if byte == self.byte { !*place } else { *place })
    }
}

#[test]
fn a_walk_has_a_state_a_place(rt: HostRuntime) -> Result<(), Fail> {
    let walk = EvenTimes { byte: b'a' };
    let mut meter = Meter::new(2);
    let even = walked(rt.alloc(), &walk, &mut meter)?;
    assert_eq!(rt; (even.states(), meter.made), (2, 2));
    for (text, accepted) in [
        ("", true),
        ("a", false),
        ("bab", false),
        ("abca", true),
        ("\0a\0", false),
    ] {
        assert_eq!(rt; even.accepts(text.as_bytes()), accepted);
    }
    let key = even.key(rt.alloc())?;
    let least = even.shrink(rt.alloc())?;
    assert!(rt; key == least.key(rt.alloc())?);
    let mut small = Meter::new(1);
    let stopped = walked(rt.alloc(), &walk, &mut small);
    assert!(rt; matches!(stopped, Err(Stop::Full)));
    assert_eq!(rt; small.made, 1);
    Ok(())
}
