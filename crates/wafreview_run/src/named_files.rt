//! Reading the files of a command, in order.

ghost use Rattle.std.specs.Prelude.{◌≡◌, ℕ, List, [], ◌∷◌, ◌≤◌, IfOk, IfErr};
ghost use Rattle.waf_base.specs.Counts.{Rose};
ghost use Rattle.waf_base.specs.Holding.{MayRead};
ghost use Rattle.wafreview_run.specs.Ended.{EndsAt};
ghost use Rattle.wafreview_run.specs.Files.{AreRead};

use crate::role::Role;
use std::alloc::Global;
use waf_base::{FileEnd, Files};

/// Why the reading of files ended early.
#[derive(Clone, Copy, Debug)]
pub(crate) enum Ended {
    /// The file of that role was not read.
    Unread(Role),
    /// The file of that role is too long.
    TooLong(Role),
    /// Memory was wanting.
    Memory,
}

/// A file's role and name.
#[derive(Clone, Copy, Debug)]
pub(crate) struct NamedRole<'a> {
    pub role: Role,
    pub name: &'a str,
}

/// The bytes of the file.
fn read_file<F: Files>(alloc: Global, files: &mut F, file: NamedRole<'_>) -> Result<Vec<u8>, Ended>
    ensures bytes { IfOk result (λ bytes. MayRead (F.tells files.old file.entry.name.now) bytes.items) }
    ensures ended { IfErr result (EndsAt (F.tells files.old) (F.sure files.old) (Rose (F.faults files.old) (F.faults files.new)) (Rose (F.long_reads files.old) (F.long_reads files.new)) ((file.entry.role, file.entry.name.now) ∷ [])) }
    ensures told { (n : List ℕ) → F.tells files.new n ≡ F.tells files.old n }
    ensures stays_sure { (n : List ℕ) → F.sure files.old n → F.sure files.new n }
    ensures faults { F.faults files.old ≤ F.faults files.new }
    ensures long_reads { F.long_reads files.old ≤ F.long_reads files.new }
{
    match files.read(alloc, file.name) {
        Ok(bytes) => Ok(bytes),
        Err(FileEnd::Failed) => Err(Ended::Unread(file.role)),
        Err(FileEnd::TooLong) => Err(Ended::TooLong(file.role)),
        Err(FileEnd::Memory) => Err(Ended::Memory),
    }
}

/// The bytes of the one file that a command names.
pub(crate) fn read_one<F: Files>(
    alloc: Global,
    files: &mut F,
    file: NamedRole<'_>,
) -> Result<Vec<u8>, Ended>
    ensures bytes { IfOk result (λ bytes. AreRead (F.tells files.old) ((file.entry.role, file.entry.name.now) ∷ []) (bytes.items ∷ [])) }
    ensures ended { IfErr result (EndsAt (F.tells files.old) (F.sure files.old) (Rose (F.faults files.old) (F.faults files.new)) (Rose (F.long_reads files.old) (F.long_reads files.new)) ((file.entry.role, file.entry.name.now) ∷ [])) }
{
    let bytes = read_file(alloc, files, file)?;
    Ok(bytes)
}

/// The bytes of two files, in the order in which they were read.
#[derive(Drop)]
pub(crate) struct TwoFiles {
    pub first: Vec<u8>,
    pub second: Vec<u8>,
}

/// The bytes of two files, the first before the second.
pub(crate) fn read_two<F: Files>(
    alloc: Global,
    files: &mut F,
    first: NamedRole<'_>,
    second: NamedRole<'_>,
) -> Result<TwoFiles, Ended>
    ensures bytes { IfOk result (λ two. AreRead (F.tells files.old) ((first.entry.role, first.entry.name.now) ∷ (second.entry.role, second.entry.name.now) ∷ []) (two.first.items ∷ two.second.items ∷ [])) }
    ensures ended { IfErr result (EndsAt (F.tells files.old) (F.sure files.old) (Rose (F.faults files.old) (F.faults files.new)) (Rose (F.long_reads files.old) (F.long_reads files.new)) ((first.entry.role, first.entry.name.now) ∷ (second.entry.role, second.entry.name.now) ∷ [])) }
    ensures faults { F.faults files.old ≤ F.faults files.new }
    ensures long_reads { F.long_reads files.old ≤ F.long_reads files.new }
{
    let bytes = read_file(alloc, files, first)?;
    let more = read_file(alloc, files, second)?;
    Ok(TwoFiles {
        first: bytes,
        second: more,
    })
}

/// The bytes of three files, in the order in which they were read.
#[derive(Drop)]
pub(crate) struct ThreeFiles {
    pub first: Vec<u8>,
    pub second: Vec<u8>,
    pub third: Vec<u8>,
}

/// The bytes of three files, each before the next.
pub(crate) fn read_three<F: Files>(
    alloc: Global,
    files: &mut F,
    first: NamedRole<'_>,
    second: NamedRole<'_>,
    third: NamedRole<'_>,
) -> Result<ThreeFiles, Ended>
    ensures bytes { IfOk result (λ three. AreRead (F.tells files.old) ((first.entry.role, first.entry.name.now) ∷ (second.entry.role, second.entry.name.now) ∷ (third.entry.role, third.entry.name.now) ∷ []) (three.first.items ∷ three.second.items ∷ three.third.items ∷ [])) }
    ensures ended { IfErr result (EndsAt (F.tells files.old) (F.sure files.old) (Rose (F.faults files.old) (F.faults files.new)) (Rose (F.long_reads files.old) (F.long_reads files.new)) ((first.entry.role, first.entry.name.now) ∷ (second.entry.role, second.entry.name.now) ∷ (third.entry.role, third.entry.name.now) ∷ [])) }
    ensures faults { F.faults files.old ≤ F.faults files.new }
    ensures long_reads { F.long_reads files.old ≤ F.long_reads files.new }
{
    let bytes = read_file(alloc, files, first)?;
    match read_two(alloc, files, second, third) {
        Ok(rest) => Ok(ThreeFiles {
            first: bytes,
            second: rest.first,
            third: rest.second,
        }),
        Err(ended) => Err(ended),
    }
}

/// The bytes of four files, in the order in which they were read.
#[derive(Drop)]
pub(crate) struct FourFiles {
    pub first: Vec<u8>,
    pub second: Vec<u8>,
    pub third: Vec<u8>,
    pub fourth: Vec<u8>,
}

/// The bytes of four files, each before the next.
pub(crate) fn read_four<F: Files>(
    alloc: Global,
    files: &mut F,
    first: NamedRole<'_>,
    second: NamedRole<'_>,
    third: NamedRole<'_>,
    fourth: NamedRole<'_>,
) -> Result<FourFiles, Ended>
    ensures bytes { IfOk result (λ four. AreRead (F.tells files.old) ((first.entry.role, first.entry.name.now) ∷ (second.entry.role, second.entry.name.now) ∷ (third.entry.role, third.entry.name.now) ∷ (fourth.entry.role, fourth.entry.name.now) ∷ []) (four.first.items ∷ four.second.items ∷ four.third.items ∷ four.fourth.items ∷ [])) }
    ensures ended { IfErr result (EndsAt (F.tells files.old) (F.sure files.old) (Rose (F.faults files.old) (F.faults files.new)) (Rose (F.long_reads files.old) (F.long_reads files.new)) ((first.entry.role, first.entry.name.now) ∷ (second.entry.role, second.entry.name.now) ∷ (third.entry.role, third.entry.name.now) ∷ (fourth.entry.role, fourth.entry.name.now) ∷ [])) }
{
    let bytes = read_file(alloc, files, first)?;
    match read_three(alloc, files, second, third, fourth) {
        Ok(rest) => Ok(FourFiles {
            first: bytes,
            second: rest.first,
            third: rest.second,
            fourth: rest.third,
        }),
        Err(ended) => Err(ended),
    }
}
