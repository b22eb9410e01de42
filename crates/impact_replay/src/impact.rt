//! What a log says of two revisions.

ghost use Rattle.std.specs.Prelude.{◌≡◌, ◌+◌, ◌<◌, ◌^◌, ◌++◌, [], OnOk};
ghost use Rattle.std.specs.Option.{option_to_list};

use std::alloc::Global;
use waf_model::{Decision, Items, Memory};

/// What two revisions of a web ACL decide otherwise of the requests of a log.
#[derive(Debug, Drop)]
pub struct Impact {
    /// How many lines of the log hold a request.
    pub lines: u64,
    /// The lines whose requests are decided otherwise, ascending, each once.
    pub changed: Items<Change>,
}

/// A line whose request two revisions decide differently.
#[derive(Clone, Copy, Debug, PartialEq, Eq)]
pub struct Change {
    /// The number of the line in its log, whose first line has the number 1.
    pub line: u64,
    pub old: Decision,
    pub new: Decision,
}

impl Impact {
    /// That of no requests.
    pub(crate) fn none(alloc: Global) -> Impact
        ensures lines { result.lines ≡ 0 }
        ensures changed { result.changed ≡ [] }
    {
        Impact {
            lines: 0,
            changed: Items::new(alloc),
        }
    }

    /// Counts one request more, with the change that it shows, if it shows one. It fails only for want of memory.
    pub(crate) fn add(&mut self, change: Option<Change>) -> Result<(), Memory>
        requires { self.old.lines + 1 < 2 ^ 64 }
        ensures { OnOk result ((self.new.lines ≡ self.old.lines + 1) × (self.new.changed ≡ self.old.changed ++ option_to_list change)) }
    {
        self.lines += 1;
        match change {
            None => Ok(()),
            Some(change) => {
                self.changed.push(change)?;
                Ok(())
            }
        }
    }
}
