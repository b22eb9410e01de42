//! Files in memory whose reads do not fail.

ghost use Rattle.std.specs.Prelude.{◌≡◌, ◌≤◌};
ghost use Rattle.waf_base.specs.Held.{held, IsHeld};
ghost use Rattle.waf_base.specs.Read.{AnswersBy, faults_after, long_after};

use crate::counter::raised;
use crate::files::{FileEnd, Files};
use crate::look_up::copy_of;
use crate::named_file::NamedFile;
use sqlite_items::Items;
use std::alloc::Global;

/// Files in memory. Each name that is held is sure; a name that is not there is a fault.
#[derive(Debug, Drop)]
pub struct SureFiles {
    pub files: Items<NamedFile>,
    /// How often a name was not there.
    pub faults: u64,
    /// How often a file was too long.
    pub long: u64,
}

impl Files for SureFiles {
    ghost tells = { λ files. held files.files };

    ghost sure = { λ files. IsHeld files.files };

    ghost faults = { λ files. files.faults };

    ghost long_reads = { λ files. files.long };

    fn read(&mut self, alloc: Global, name: &str) -> Result<Vec<u8>, FileEnd>
        ensures exact { AnswersBy (held self.old.files name.now) result }
        ensures kept { self.new.files ≡ self.old.files }
        ensures faults { self.new.faults ≡ faults_after result self.old.faults }
        ensures long { self.new.long ≡ long_after result self.old.long }
        ensures no_fewer_faults { self.old.faults ≤ self.new.faults }
        ensures no_fewer_long { self.old.long ≤ self.new.long }
    {
        let answer = copy_of(alloc, self.files.as_slice(), name);
        match answer {
            Err(FileEnd::Failed) => self.faults = raised(self.faults),
            Err(FileEnd::TooLong) => self.long = raised(self.long),
            _ => {}
        }
        answer
    }
}
