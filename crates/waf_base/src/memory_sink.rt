//! A sink in memory, some of whose writes fail.

ghost use Rattle.std.specs.Prelude.{◌≡◌, ◌≢◌, ◌≤◌, ◌<◌, ◌+◌, ◌-◌, ◌++◌, [], ◌⊎◌, ◌↔◌, IsTrue, min, max, Some, length, take, vec_len, vec_capacity, IfOk, OnOk, OnErr, IsErr, Contains};
ghost use Rattle.waf_base.specs.Counts.{one_more};

use crate::counter::{is_listed, raised};
use crate::refusal::Memory;
use crate::sink::{Failed, Sink};
use sqlite_items::Items;
use std::alloc::Global;

/// A sink in memory: it takes at most `most` bytes in one write, though at least one, and at most `room` bytes in
/// all. The writes whose numbers, from 0, are listed fail, and so does one at which the room is full.
#[derive(Debug, Drop)]
pub struct MemSink {
    pub taken: Vec<u8>,
    pub room: usize,
    /// The numbers of the writes that fail.
    pub failing: Items<u64>,
    pub most: usize,
    /// How many writes there were.
    pub calls: u64,
    /// How many writes failed.
    pub faults: u64,
    ghost within: { vec_len taken ≤ room },
    ghost room_is_held: { room ≤ vec_capacity taken },
}

impl MemSink {
    /// An empty sink, which takes the memory for `room` bytes at once, so that no write wants memory.
    pub fn new(
        alloc: Global,
        room: usize,
        most: usize,
        failing: Items<u64>,
    ) -> Result<MemSink, Memory>
        ensures taken { IfOk result (λ sink. sink.taken.items ≡ []) }
        ensures sizes { IfOk result (λ sink. (sink.room ≡ room) × (sink.most ≡ most)) }
        ensures failing { IfOk result (λ sink. sink.failing ≡ failing) }
        ensures counts { IfOk result (λ sink. (sink.calls ≡ 0) × (sink.faults ≡ 0)) }
    {
        let taken = Vec::with_capacity(alloc, room)?;
        Ok(MemSink {
            taken,
            room,
            failing,
            most,
            calls: 0,
            faults: 0,
        })
    }

    /// Whether the next write fails: its number is listed, or the room is full.
    fn is_to_fail(&self) -> bool
        ensures { IsTrue result ↔ (Contains self.now.failing self.now.calls ⊎ (vec_len self.now.taken ≡ self.now.room)) }
    {
        if self.taken.len() == self.room {
            return true;
        }
        is_listed(self.failing.as_slice(), self.calls)
    }
}

impl Sink for MemSink {
    ghost taken = { λ sink. Some sink.taken.items };

    ghost faults = { λ sink. sink.faults };

    fn write(&mut self, bytes: &[u8]) -> Result<usize, Failed>
        requires { 0 < length bytes.now }
        ensures fails { IsErr result ↔ (Contains self.old.failing self.old.calls ⊎ (vec_len self.old.taken ≡ self.old.room)) }
        ensures count { IfOk result (λ n. n ≡ min (min (length bytes.now) (max self.old.most 1)) (self.old.room - vec_len self.old.taken)) }
        ensures taken { IfOk result (λ n. self.new.taken.items ≡ self.old.taken.items ++ take n bytes.now) }
        ensures kept { OnErr result (self.new.taken.items ≡ self.old.taken.items) }
        ensures calls { self.new.calls ≡ one_more self.old.calls }
        ensures risen { OnErr result (self.new.faults ≡ one_more self.old.faults) }
        ensures level { OnOk result (self.new.faults ≡ self.old.faults) }
        ensures no_less { self.old.faults ≤ self.new.faults }
        ensures same { (self.new.failing ≡ self.old.failing) × (self.new.room ≡ self.old.room) × (self.new.most ≡ self.old.most) }
    {
        let fails = self.is_to_fail();
        self.calls = raised(self.calls);
        if fails {
            self.faults = raised(self.faults);
            return Err(Failed);
        }
        let count = bytes
            .len()
            .min(self.most.max(1))
            .min(self.room - self.taken.len());
        self.taken.extend_from_slice(&bytes[..count]).unwrap();
        Ok(count)
    }
}
