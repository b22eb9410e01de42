//! Reading from files that are held in memory.

ghost use Rattle.std.specs.Prelude.{◌≡◌};
ghost use Rattle.std.specs.Option.{option_copied};
ghost use Rattle.waf_base.specs.Held.{held, file_of};
ghost use Rattle.waf_base.specs.Read.{AnswersBy};

use crate::files::{FileEnd, LONGEST_FILE};
use crate::named_file::NamedFile;
use std::alloc::Global;

/// The first file of that name.
fn find<'a>(files: &'a [NamedFile], name: &str) -> Option<&'a NamedFile>
    ensures { option_copied result ≡ file_of files.now name.now }
{
    files
        .iter()
        .find(|file| file.name.bytes() == name.as_bytes())
}

/// A copy of the bytes that the name holds, or why there is none. No count is raised here.
pub(crate) fn copy_of(alloc: Global, files: &[NamedFile], name: &str) -> Result<Vec<u8>, FileEnd>
    ensures { AnswersBy (held files.now name.now) result }
{
    let Some(file) = find(files, name) else {
        return Err(FileEnd::Failed);
    };
    if file.bytes.bytes().len() > LONGEST_FILE {
        return Err(FileEnd::TooLong);
    }
    Ok(Vec::from_slice(alloc, file.bytes.bytes())?)
}
