//! The file system as files: the trusted edge.

ghost use Rattle.std.specs.Prelude.{◌≡◌, ◌≤◌, ◌+◌, length, vec_len, IfOk, ⊤};
ghost use Rattle.waf_base.specs.Holding.{Untold};

use crate::counter::raised;
use crate::files::{FileEnd, Files, LONGEST_FILE};
use std::alloc::Global;
use std::fs;
use std::io::Read;

/// The file system. It tells nothing of what a name holds, and no name is sure.
#[derive(Debug, Drop)]
pub struct RealFiles<R> {
    rt: R,
    faults: u64,
    long: u64,
}

impl<R: std::rt::Files> RealFiles<R> {
    /// The file system of this runtime, with nothing counted.
    pub fn new(rt: R) -> RealFiles<R>
        ensures { (result.faults ≡ 0) × (result.long ≡ 0) }
    {
        RealFiles {
            rt,
            faults: 0,
            long: 0,
        }
    }
}

/// The bytes of the file, of which at most one piece is read past `LONGEST_FILE`.
fn bytes_of<R: std::rt::Files>(rt: &R, alloc: Global, name: &str) -> Result<Vec<u8>, FileEnd> {
    let mut file = fs::open(rt, name).map_err(|_| FileEnd::Failed)?;
    let mut bytes = Vec::new(alloc);
    let mut piece = [0u8; 65536];
    for _ in 0..u64::MAX {
        let count = file.read(&mut piece).map_err(|_| FileEnd::Failed)?;
        if count == 0 {
            return Ok(bytes);
        }
        bytes.extend_from_slice(&piece[..count])?;
        if bytes.len() > LONGEST_FILE {
            return Err(FileEnd::TooLong);
        }
    }
    Err(FileEnd::TooLong)
}

impl<R: std::rt::Files> Files for RealFiles<R> {
    ghost tells = { λ _ _. Untold };

    ghost sure = { λ _ _. ⊥ };

    ghost faults = { λ files. files.faults };

    ghost long_reads = { λ files. files.long };

    fn read(&mut self, alloc: Global, name: &str) -> Result<Vec<u8>, FileEnd> {
        let answer = bytes_of(&self.rt, alloc, name);
        match answer {
            Err(FileEnd::Failed) => self.faults = raised(self.faults),
            Err(FileEnd::TooLong) => self.long = raised(self.long),
            _ => {}
        }
        answer
    }
}
