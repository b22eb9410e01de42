//! Evaluates a web ACL of AWS WAF on a recorded request, and reviews two revisions of one.
#![tactic(auto)]

ghost use Rattle.std.specs.Prelude.{◌≡◌, IfOk, OnErr};
ghost use Rattle.std.specs.Process.{exit_status};

mod words;

use std::io;
use std::process::ExitCode;
use waf_base::{RealFiles, StdSink};
use wafreview_run::{Status, run, write_answer};
use words::words;

/// Runs the words of the command line on the real files and the real output.
fn run_words(rt: &HostRuntime) -> io::Result<Status> {
    let mut out = StdSink::new(rt.clone()?);
    match words(rt) {
        Ok(words) => {
            let mut files = RealFiles::new(rt.clone()?);
            Ok(run(rt.alloc(), &words, &mut files, &mut out))
        }
        Err(answer) => Ok(write_answer(&answer, &mut out)),
    }
}

/// The exit code of a run: its status, or 8 where the program could not even begin to run.
fn exit_code(run: io::Result<Status>) -> ExitCode
    ensures ran { IfOk run (λ status. exit_status result ≡ status.code) }
    ensures did_not_begin { OnErr run (exit_status result ≡ 8) }
{
    match run {
        Ok(status) => ExitCode::from(status.code),
        Err(_) => ExitCode::from(8),
    }
}

/// Ends with the exit code of the run.
fn main(rt: HostRuntime) -> ExitCode {
    exit_code(run_words(&rt))
}
