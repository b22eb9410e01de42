//! A statement as words of a line.

use crate::field_line::{push_forwarded, push_target};
use crate::line::Line;
use waf_model::{Items, Memory, Statement, Text};

fn push_opaque(
    line: &mut Line,
    key: &Text,
    cost: &Option<u64>,
    arn: &Option<Text>,
) -> Result<(), Memory> {
    line.word(b"Opaque")?;
    match cost {
        Some(cost) => line.number(*cost)?,
        None => line.word(b"?")?,
    }
    line.word(key.bytes())?;
    if let Some(arn) = arn {
        line.word(arn.bytes())?;
    }
    Ok(())
}

// A test of a field; what is none is handed on.
fn push_simple(line: &mut Line, statement: &Statement) -> Result<(), Memory> {
    match statement {
        Statement::ByteMatch {
            search,
            field,
            transforms,
            position,
        } => {
            line.word(b"ByteMatch")?;
            line.named(position)?;
            line.word(search.bytes())?;
            push_target(line, field, transforms)
        }
        Statement::Size {
            op,
            size,
            field,
            transforms,
        } => {
            line.word(b"Size")?;
            line.named(op)?;
            line.number(*size)?;
            push_target(line, field, transforms)
        }
        Statement::Regex {
            pattern,
            field,
            transforms,
        } => {
            line.word(b"Regex")?;
            line.named(pattern)?;
            push_target(line, field, transforms)
        }
        statement => push_reference(line, statement),
    }
}

// A statement that refers to something, or asks; of one that is made of others only that there is one.
fn push_reference(line: &mut Line, statement: &Statement) -> Result<(), Memory> {
    match statement {
        Statement::PatternSet {
            arn,
            field,
            transforms,
            source,
        } => {
            line.word(b"PatternSet")?;
            line.word(arn.bytes())?;
            push_target(line, field, transforms)?;
            line.word(source.bytes())
        }
        Statement::Ip { arn, forwarded } => {
            line.word(b"Ip")?;
            line.word(arn.bytes())?;
            push_forwarded(line, forwarded)
        }
        Statement::Label { scope, key } => {
            line.word(b"Label")?;
            line.named(scope)?;
            line.word(key.bytes())
        }
        Statement::Opaque { key, cost, arn } => push_opaque(line, key, cost, arn),
        _ => line.word(b".."),
    }
}

/// Adds a part of a statement in brackets; of one that is made of others only that there is one.
pub(crate) fn push_part(line: &mut Line, part: &Statement) -> Result<(), Memory> {
    line.open()?;
    push_simple(line, part)?;
    line.mark(b")")
}

fn push_parts(line: &mut Line, name: &[u8], parts: &Items<Statement>) -> Result<(), Memory> {
    line.word(name)?;
    for part in parts.as_slice() {
        push_part(line, part)?;
    }
    Ok(())
}

/// Adds what a statement is, with its parts in brackets.
pub(crate) fn push_statement(line: &mut Line, statement: &Statement) -> Result<(), Memory> {
    match statement {
        Statement::And(parts) => push_parts(line, b"And", parts),
        Statement::Or(parts) => push_parts(line, b"Or", parts),
        Statement::Not(part) => {
            line.word(b"Not")?;
            push_part(line, part.get())
        }
        Statement::Rate {
            key,
            custom_keys,
            scope_down,
        } => {
            line.word(b"Rate")?;
            line.number(u64::from(*custom_keys))?;
            line.word(key.bytes())?;
            match scope_down {
                Some(part) => push_part(line, part.get()),
                None => Ok(()),
            }
        }
        statement => push_simple(line, statement),
    }
}
