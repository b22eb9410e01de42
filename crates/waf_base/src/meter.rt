//! The count of nodes that a review may make.

ghost use Rattle.std.specs.Prelude.{◌≡◌, ◌+◌, ◌≤◌, ◌↔◌, OnOk, OnErr, IsErr};

use crate::refusal::Full;

/// How many nodes may be made, and how many were: never more than the limit.
#[derive(Clone, Copy, Debug, PartialEq, Eq)]
pub struct Meter {
    /// How many nodes may be made.
    pub limit: u32,
    /// How many nodes were made.
    pub made: u32,
    ghost within: { made ≤ limit },
}

impl Meter {
    /// A meter at which no node was made.
    pub fn new(limit: u32) -> Meter
        ensures { (result.limit ≡ limit) × (result.made ≡ 0) }
    {
        Meter { limit, made: 0 }
    }

    /// Counts one node, or answers that the limit was reached, and then nothing changes.
    pub fn make(&mut self) -> Result<(), Full>
        ensures full { IsErr result ↔ (self.old.made ≡ self.old.limit) }
        ensures ok { OnOk result (self.new.made ≡ self.old.made + 1) }
        ensures err { OnErr result (self.new.made ≡ self.old.made) }
        ensures limit { self.new.limit ≡ self.old.limit }
    {
        if self.made == self.limit {
            return Err(Full);
        }
        self.made += 1;
        Ok(())
    }
}
