//! Writing an answer.

ghost use Rattle.std.specs.Prelude.{◌≡◌, ◌<◌, length, IfOk, OnOk, OnErr};
ghost use Rattle.waf_base.specs.Counts.{Rose};
ghost use Rattle.waf_base.specs.Taken.{Appends};
ghost use Rattle.wafreview_run.specs.Answer.{code_of as answer_code, text_of as answer_text};
ghost use Rattle.wafreview_run.specs.Answered.{Written};
ghost use Rattle.wafreview_run.specs.Fronts.{TookBefore, TookFront};
ghost use Rattle.wafreview_run.specs.Texts.{unread_text, too_long_text};

use crate::answer::Answer;
use crate::role::Role;
use crate::status::Status;
use waf_base::{Failed, Sink};

const USAGE: &str =
    "usage: wafreview evaluate BUNDLE REQUEST [ANSWERS] | capacity BUNDLE | keys BUNDLE | review OLD NEW [--nodes N] | generate K | impact OLD NEW LOG [ANSWERS]\n";

/// The line for a file that was not read. It is held, so that it takes no memory.
fn unread_line(role: Role) -> &'static str
    ensures { result.now ≡ unread_text role }
{
    match role {
        Role::Bundle => "read fault bundle\n",
        Role::Request => "read fault request\n",
        Role::Answers => "read fault answers\n",
        Role::Old => "read fault old\n",
        Role::New => "read fault new\n",
        Role::Log => "read fault log\n",
    }
}

/// The line for a file that is too long. It is held, so that it takes no memory.
fn too_long_line(role: Role) -> &'static str
    ensures { result.now ≡ too_long_text role }
{
    match role {
        Role::Bundle => "too long bundle\n",
        Role::Request => "too long request\n",
        Role::Answers => "too long answers\n",
        Role::Old => "too long old\n",
        Role::New => "too long new\n",
        Role::Log => "too long log\n",
    }
}

/// The whole text of an answer.
fn text_of(answer: &Answer) -> &[u8]
    ensures { result.now ≡ answer_text answer.now }
{
    match answer {
        Answer::Usage => USAGE.as_bytes(),
        Answer::Unread(role) => unread_line(*role).as_bytes(),
        Answer::TooLong(role) => too_long_line(*role).as_bytes(),
        Answer::Done { code: _, text } => text.bytes(),
        Answer::NoMemory => b"memory\n",
    }
}

/// The status of an answer whose text was written whole.
fn code_of(answer: &Answer) -> u8
    ensures { result ≡ answer_code answer.now }
{
    match answer {
        Answer::Usage => 2,
        Answer::Unread(_) => 6,
        Answer::TooLong(_) => 9,
        Answer::Done { code, text: _ } => *code,
        Answer::NoMemory => 8,
    }
}

/// Hands the text to the sink once, and gives what is left of it. A write that failed isn't tried again.
fn left_of<'a, O: Sink>(out: &mut O, text: &'a [u8]) -> Result<&'a [u8], Failed>
    requires { 0 < length text.now }
    ensures taken { IfOk result (λ left. TookBefore (O.taken out.old) (O.taken out.new) text.now left.now) }
    ensures fewer { IfOk result (λ left. length left.now < length text.now) }
    ensures level { OnOk result (O.faults out.new ≡ O.faults out.old) }
    ensures kept { OnErr result (O.taken out.new ≡ O.taken out.old) }
    ensures failed { OnErr result (Rose (O.faults out.old) (O.faults out.new)) }
{
    let count = out.write(text)?;
    let (_, left) = text.split_at(count);
    Ok(left)
}

/// Writes the whole text, piece by piece, and no empty piece; on the first failure a front of it was taken, and nothing
/// more is written.
fn write_all<O: Sink>(out: &mut O, text: &[u8]) -> Result<(), Failed>
    ensures whole { OnOk result (Appends (O.taken out.old) (O.taken out.new) text.now) }
    ensures level { OnOk result (O.faults out.new ≡ O.faults out.old) }
    ensures front { OnErr result (TookFront (O.taken out.old) (O.taken out.new) text.now) }
    ensures failed { OnErr result (Rose (O.faults out.old) (O.faults out.new)) }
{
    let mut rest = text;
    while !rest.is_empty() {
        rest = left_of(out, rest)?;
    }
    Ok(())
}

/// Writes the text of the answer, and says how the run ends.
pub fn write_answer<O: Sink>(answer: &Answer, out: &mut O) -> Status
    ensures { Written (O.taken out.old) (O.taken out.new) (O.faults out.old) (O.faults out.new) (answer_code answer.now) (answer_text answer.now) result.code }
{
    match write_all(out, text_of(answer)) {
        Ok(()) => Status {
            code: code_of(answer),
        },
        Err(Failed) => Status { code: 7 },
    }
}
