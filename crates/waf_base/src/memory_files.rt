//! Files in memory, some of whose reads fail.

ghost use Rattle.std.specs.Prelude.{◌≡◌, ◌≤◌, [], Contains, Err};
ghost use Rattle.waf_base.specs.Counts.{one_more};
ghost use Rattle.waf_base.specs.Held.{held, IsHeld};
ghost use Rattle.waf_base.specs.Read.{AnswersBy, faults_after, long_after};
ghost use Rattle.waf_base.specs.declared.files.FileEnd.TheVariants as ends;

use crate::counter::{is_listed, raised};
use crate::files::{FileEnd, Files};
use crate::look_up::copy_of;
use crate::named_file::NamedFile;
use sqlite_items::Items;
use std::alloc::Global;

/// Files in memory. The reads whose numbers, from 0, are listed fail. A name that is held is sure where none is
/// listed.
#[derive(Debug, Drop)]
pub struct MemFiles {
    pub files: Items<NamedFile>,
    /// The numbers of the reads that fail.
    pub failing: Items<u64>,
    /// How many reads there were.
    pub calls: u64,
    /// How many reads failed.
    pub faults: u64,
    /// How many reads were of a file that is too long.
    pub long: u64,
}

impl Files for MemFiles {
    ghost tells = { λ files. held files.files };

    ghost sure = { λ files name. IsHeld files.files name × (files.failing ≡ []) };

    ghost faults = { λ files. files.faults };

    ghost long_reads = { λ files. files.long };

    fn read(&mut self, alloc: Global, name: &str) -> Result<Vec<u8>, FileEnd>
        ensures listed { Contains self.old.failing self.old.calls → result ≡ Err ends.Failed }
        ensures exact { (Contains self.old.failing self.old.calls → ⊥) → AnswersBy (held self.old.files name.now) result }
        ensures kept { (self.new.files ≡ self.old.files) × (self.new.failing ≡ self.old.failing) }
        ensures calls { self.new.calls ≡ one_more self.old.calls }
        ensures faults { self.new.faults ≡ faults_after result self.old.faults }
        ensures long { self.new.long ≡ long_after result self.old.long }
        ensures no_fewer_faults { self.old.faults ≤ self.new.faults }
        ensures no_fewer_long { self.old.long ≤ self.new.long }
    {
        let fails = is_listed(self.failing.as_slice(), self.calls);
        self.calls = self.calls.saturating_add(1);
        if fails {
            self.faults = raised(self.faults);
            return Err(FileEnd::Failed);
        }
        let answer = copy_of(alloc, self.files.as_slice(), name);
        match answer {
            Err(FileEnd::Failed) => self.faults = raised(self.faults),
            Err(FileEnd::TooLong) => self.long = raised(self.long),
            _ => {}
        }
        answer
    }
}
