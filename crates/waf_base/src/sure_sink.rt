//! A sink that takes everything and keeps nothing.

ghost use Rattle.std.specs.Prelude.{◌≡◌, ◌≤◌, ◌<◌, Ok, None, length, IfOk, OnErr};

use crate::sink::{Failed, Sink};

/// Takes every piece whole, keeps nothing and tells nothing of its bytes. Its count of faults is always 0.
#[derive(Clone, Copy, Debug)]
pub struct SureSink;

impl Sink for SureSink {
    ghost taken = { λ _. None };

    ghost faults = { λ _. 0 };

    fn write(&mut self, bytes: &[u8]) -> Result<usize, Failed>
        ensures whole { result ≡ Ok (length bytes.now) }
    {
        Ok(bytes.len())
    }
}
