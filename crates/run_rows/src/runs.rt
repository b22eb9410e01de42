//! Rows of runs.

use crate::case::{Case, CaseFault};
use std::alloc::Global;
use text_rows::{Kind, unknown};
use waf_base::{Files, Items, MemFiles, MemSink, Memory, SureFiles, SureSink, Text};
use wafreview_run::{Status, run};

/// Each row is a run of the program over files and a sink in memory: what is given are its words, files and faults, and
/// what is wanted are its status and the lines of the text that was taken.
pub(crate) struct Runs;

impl Kind for Runs {
    fn answer(&self, alloc: Global, given: &[Text]) -> Result<Vec<Text>, Memory> {
        match Case::of(alloc, given) {
            Ok(case) => run_case(alloc, case),
            Err(CaseFault::Unknown) => unknown(alloc),
            Err(CaseFault::Memory) => Err(Memory),
        }
    }
}

/// Where the text goes.
#[derive(Debug, Drop)]
struct Output {
    room: usize,
    most: usize,
    failing: Items<u64>,
    is_sure: bool,
}

/// What the run comes to.
fn run_case(alloc: Global, case: Case) -> Result<Vec<Text>, Memory> {
    let Case {
        words,
        files,
        failing_reads,
        failing_writes,
        room,
        most,
        has_sure_files,
        has_sure_sink,
    } = case;
    let output = Output {
        room,
        most,
        failing: Items::from_vec(failing_writes),
        is_sure: has_sure_sink,
    };
    let files = Items::from_vec(files);
    if has_sure_files {
        let mut files = SureFiles {
            files,
            faults: 0,
            long: 0,
        };
        return run_on(alloc, &words, &mut files, output);
    }
    let mut files = MemFiles {
        files,
        failing: Items::from_vec(failing_reads),
        calls: 0,
        faults: 0,
        long: 0,
    };
    run_on(alloc, &words, &mut files, output)
}

/// What the run of these words on these files comes to.
fn run_on<F: Files>(
    alloc: Global,
    words: &[String],
    files: &mut F,
    output: Output,
) -> Result<Vec<Text>, Memory> {
    if output.is_sure {
        let status = run(alloc, words, files, &mut SureSink);
        return fields_of(alloc, status, b"");
    }
    let mut sink = MemSink::new(alloc, output.room, output.most, output.failing)?;
    let status = run(alloc, words, files, &mut sink);
    fields_of(alloc, status, &sink.taken)
}

/// The status, and each line of the text; behind a text that doesn't end in a newline the field `(cut)`.
fn fields_of(alloc: Global, status: Status, text: &[u8]) -> Result<Vec<Text>, Memory> {
    let mut code = Text::new(alloc);
    code.push_number(alloc, u64::from(status.code))?;
    let mut fields = Vec::new(alloc);
    fields.push(code)?;
    match text {
        [] => {}
        [lines @ .., b'\n'] => push_lines(alloc, &mut fields, lines)?,
        _ => {
            push_lines(alloc, &mut fields, text)?;
            fields.push(Text::of(alloc, b"(cut)")?)?;
        }
    }
    Ok(fields)
}

/// Adds each line of the text.
fn push_lines(alloc: Global, fields: &mut Vec<Text>, text: &[u8]) -> Result<(), Memory> {
    for line in text.split(|byte| *byte == b'\n') {
        fields.push(Text::of(alloc, line)?)?;
    }
    Ok(())
}
