//! The request of a line of a log.

ghost use Rattle.std.specs.Prelude.{◌≡◌, ◌<◌, IfErr, IfOk, Ok, length};
ghost use Rattle.impact_replay.specs.Lines.{IsLineFault, IsNamedFault};
ghost use Rattle.request_parts.specs.RequestReading.{request_reading};

use crate::replay_fault::ReplayFault;
use request_parts::read_request;
use std::alloc::Global;
use waf_model::{ReadFault, Request};

/// A fault with the number of its line, or want of memory, which is no line's.
fn line_fault(number: u64, fault: ReadFault) -> ReplayFault
    ensures { IsNamedFault number fault result }
{
    match fault {
        ReadFault::Memory => ReplayFault::Memory,
        fault => ReplayFault::Line { number, fault },
    }
}

/// The request that the line of that number is read as, which isn't empty.
pub(crate) fn line_request(alloc: Global, number: u64, line: &[u8]) -> Result<Request, ReplayFault>
    requires { 0 < length line.now }
    ensures request { IfOk result (λ request. request_reading line.now ≡ Ok request) }
    ensures fault { IfErr result (IsLineFault number line.now) }
{
    match read_request(alloc, line) {
        Ok(request) => Ok(request),
        Err(fault) => Err(line_fault(number, fault)),
    }
}
