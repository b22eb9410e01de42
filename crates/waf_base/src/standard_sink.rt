//! Standard output as a sink: the trusted edge.

ghost use Rattle.std.specs.Prelude.{None, ◌≡◌};

use crate::counter::raised;
use crate::sink::{Failed, Sink};
use std::io;
use std::io::Write;

/// Standard output. It tells nothing of the bytes that it took.
#[derive(Debug, Drop)]
pub struct StdSink<R> {
    rt: R,
    faults: u64,
}

impl<R: Print> StdSink<R> {
    /// Standard output of this runtime, with no fault counted.
    pub fn new(rt: R) -> StdSink<R>
        ensures { result.faults ≡ 0 }
    {
        StdSink { rt, faults: 0 }
    }
}

impl<R: Print> Sink for StdSink<R> {
    ghost taken = { λ _. None };

    ghost faults = { λ sink. sink.faults };

    fn write(&mut self, bytes: &[u8]) -> Result<usize, Failed> {
        let answer = io::writer(&self.rt).write(bytes);
        match answer {
            Ok(count) if 0 < count && count <= bytes.len() => Ok(count),
            _ => {
                self.faults = raised(self.faults);
                Err(Failed)
            }
        }
    }
}
