//! A fault of reading in one line.

use crate::line::Line;
use std::alloc::Global;
use waf_model::{Memory, ReadFault, Text};

// A code, and behind it a path or an ARN.
fn coded(alloc: Global, code: &[u8], detail: &Text) -> Result<Text, Memory> {
    let mut line = Line::new(alloc);
    line.word(code)?;
    line.word(detail.bytes())?;
    Ok(line.into_text())
}

// A path, and the limit that is exceeded there.
fn limited(alloc: Global, path: &Text, limit: u32) -> Result<Text, Memory> {
    let mut line = Line::new(alloc);
    line.word(b"E11")?;
    line.word(path.bytes())?;
    line.number(u64::from(limit))?;
    Ok(line.into_text())
}

// The priority that two rules have.
fn doubled(alloc: Global, priority: u32) -> Result<Text, Memory> {
    let mut line = Line::new(alloc);
    line.word(b"E5")?;
    line.number(u64::from(priority))?;
    Ok(line.into_text())
}

/// The fault's code and its detail: a path, an ARN or a priority, and behind a path the limit where one is exceeded.
pub(crate) fn fault_line(alloc: Global, fault: &ReadFault) -> Result<Text, Memory> {
    match fault {
        ReadFault::Json => Text::of(alloc, b"E1"),
        ReadFault::Shape(path) => coded(alloc, b"E2", path),
        ReadFault::Number(path) => coded(alloc, b"E3", path),
        ReadFault::Name(path) => coded(alloc, b"E4", path),
        ReadFault::SamePriority(priority) => doubled(alloc, *priority),
        ReadFault::Action(path) => coded(alloc, b"E6", path),
        ReadFault::Nested(path) => coded(alloc, b"E7", path),
        ReadFault::Missing(arn) => coded(alloc, b"E8", arn),
        ReadFault::Base64(path) => coded(alloc, b"E9", path),
        ReadFault::Address(path) => coded(alloc, b"E10", path),
        ReadFault::Limit(path, limit) => limited(alloc, path, *limit),
        ReadFault::Namespace(path) => coded(alloc, b"E12", path),
        ReadFault::OneStatement(path) => coded(alloc, b"E13", path),
        ReadFault::NotBuilt(path) => coded(alloc, b"E0", path),
        ReadFault::Memory => Err(Memory),
    }
}
