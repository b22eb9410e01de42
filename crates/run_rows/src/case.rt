//! What a row says of a run.

use crate::setting::{Setting, setting_of};
use std::alloc::Global;
use waf_base::{LONGEST_FILE, Memory, NamedFile, Text};

/// A run: the words of its command line, the files, and where files and sink fail.
#[derive(Debug, Drop)]
pub(crate) struct Case {
    pub(crate) words: Vec<String>,
    pub(crate) files: Vec<NamedFile>,
    /// The numbers, from 0, of the reads that fail.
    pub(crate) failing_reads: Vec<u64>,
    /// The numbers, from 0, of the writes that fail.
    pub(crate) failing_writes: Vec<u64>,
    /// How many bytes the sink takes in all.
    pub(crate) room: usize,
    /// How many bytes the sink takes in one write.
    pub(crate) most: usize,
    pub(crate) has_sure_files: bool,
    pub(crate) has_sure_sink: bool,
}

/// Why a row says nothing of a run.
#[derive(Clone, Copy, Debug)]
pub(crate) enum CaseFault {
    Memory,
    /// A field is none of those that a row may have.
    Unknown,
}

impl From<Memory> for CaseFault {
    fn from(_memory: Memory) -> CaseFault {
        CaseFault::Memory
    }
}

/// The words between single spaces, none of an empty text.
fn words_of(alloc: Global, line: &[u8]) -> Result<Vec<String>, CaseFault> {
    let mut words = Vec::new(alloc);
    if line.is_empty() {
        return Ok(words);
    }
    let Ok(line) = std::str::from_utf8(line) else {
        return Err(CaseFault::Unknown);
    };
    for word in line.split(' ') {
        push_word(alloc, &mut words, word)?;
    }
    Ok(words)
}

fn push_word(alloc: Global, words: &mut Vec<String>, word: &str) -> Result<(), Memory> {
    words.push(String::from_str(alloc, word)?)?;
    Ok(())
}

/// Adds the numbers between single spaces.
fn push_numbers(numbers: &mut Vec<u64>, text: &str) -> Result<(), CaseFault> {
    for digits in text.split(' ') {
        let Ok(number) = digits.parse() else {
            return Err(CaseFault::Unknown);
        };
        push_number(numbers, number)?;
    }
    Ok(())
}

fn push_number(numbers: &mut Vec<u64>, number: u64) -> Result<(), Memory> {
    numbers.push(number)?;
    Ok(())
}

/// A file of spaces with one byte more than is read.
fn too_long(alloc: Global, name: &str) -> Result<NamedFile, Memory> {
    Ok(NamedFile {
        name: Text::of(alloc, name.as_bytes())?,
        bytes: Text::from_vec(vec![in alloc; b' '; LONGEST_FILE + 1]?),
    })
}

fn named_file(alloc: Global, name: &[u8], bytes: &[u8]) -> Result<NamedFile, Memory> {
    Ok(NamedFile {
        name: Text::of(alloc, name)?,
        bytes: Text::of(alloc, bytes)?,
    })
}

impl Case {
    /// The run of the words on no files, with room for every text.
    fn of_words(alloc: Global, line: &[u8]) -> Result<Case, CaseFault> {
        Ok(Case {
            words: words_of(alloc, line)?,
            files: Vec::new(alloc),
            failing_reads: Vec::new(alloc),
            failing_writes: Vec::new(alloc),
            room: 1_048_576,
            most: 1_048_576,
            has_sure_files: false,
            has_sure_sink: false,
        })
    }

    fn push_file(&mut self, file: NamedFile) -> Result<(), Memory> {
        self.files.push(file)?;
        Ok(())
    }

    /// Takes what one field says into the run.
    fn set(&mut self, alloc: Global, setting: Setting<'_>) -> Result<(), CaseFault> {
        match setting {
            Setting::Word(word) => push_word(alloc, &mut self.words, word)?,
            Setting::File { name, bytes } => self.push_file(named_file(alloc, name, bytes)?)?,
            Setting::TooLong(name) => self.push_file(too_long(alloc, name)?)?,
            Setting::ReadsFail(numbers) => push_numbers(&mut self.failing_reads, numbers)?,
            Setting::WritesFail(numbers) => push_numbers(&mut self.failing_writes, numbers)?,
            Setting::Room(room) => self.room = room,
            Setting::Most(most) => self.most = most,
            Setting::SureFiles => self.has_sure_files = true,
            Setting::SureSink => self.has_sure_sink = true,
        }
        Ok(())
    }

    /// The run that the given fields say.
    pub(crate) fn of(alloc: Global, given: &[Text]) -> Result<Case, CaseFault> {
        let [line, fields @ ..] = given else {
            return Err(CaseFault::Unknown);
        };
        let mut case = Case::of_words(alloc, line.bytes())?;
        for field in fields {
            match setting_of(field.bytes()) {
                Some(setting) => case.set(alloc, setting)?,
                None => return Err(CaseFault::Unknown),
            }
        }
        Ok(case)
    }
}
