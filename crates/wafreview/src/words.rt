//! The words of the command line.

ghost use Rattle.std.specs.Prelude.{◌≡◌, ◌⊎◌, IfOk, IfErr, drop, vec_items};
ghost use Rattle.std.specs.IoError.{error_kind};
ghost use Rattle.std.specs.Vec.Iter.{into_iter_items};
ghost use Rattle.wafreview_run.specs.declared.answer.Answer.TheVariants as answers;

use std::alloc::Global;
use std::env::Args;
use std::io::ErrorKind;
use std::{env, io};
use wafreview_run::Answer;

/// The answer where the words could not be had: words that are no UTF-8 are no command, and otherwise memory was wanting.
fn without_words(error: &io::Error) -> Answer
    ensures no_utf8 { error_kind error.now ≡ ErrorKind.InvalidData → result ≡ answers.Usage }
    ensures other { (error_kind error.now ≡ ErrorKind.InvalidData → ⊥) → result ≡ answers.NoMemory }
{
    match error.kind() {
        ErrorKind::InvalidData => Answer::Usage,
        _ => Answer::NoMemory,
    }
}

/// The words behind the first, which is the program's name, in their order. It fails only for want of memory.
fn behind_name(alloc: Global, all: Args) -> Result<Vec<String>, Answer>
    ensures words { IfOk result (λ words. vec_items words ≡ drop 1 (into_iter_items all)) }
    ensures memory { IfErr result (λ answer. answer ≡ answers.NoMemory) }
{
    match all.skip(1).collect(alloc) {
        Ok(words) => Ok(words),
        Err(_) => Err(Answer::NoMemory),
    }
}

/// The words behind the program's name, or the answer where they could not be had. That these are the words that the
/// program was started with isn't said: std has no clause on them.
pub(crate) fn words(rt: &HostRuntime) -> Result<Vec<String>, Answer>
    ensures { IfErr result (λ answer. (answer ≡ answers.Usage) ⊎ (answer ≡ answers.NoMemory)) }
{
    match env::args(rt) {
        Ok(all) => behind_name(rt.alloc(), all),
        Err(error) => Err(without_words(&error)),
    }
}
