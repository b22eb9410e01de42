//! What was read, or its fault, in one line.
//!
//! A function that owns one of these large values has a drop for each of their parts at each of its ends, and takes long to
//! be proved; here the value is of any type, and its drop one step.

use crate::acl_line::{push_acl, push_group};
use crate::bundle_line::push_bundle;
use crate::fault_line::fault_line;
use crate::line::Line;
use crate::rule_line::{push_group_use, push_managed_use};
use crate::statement_line::push_statement;
use statement_json::TopStatement;
use std::alloc::Global;
use waf_model::{Acl, Bundle, Group, Memory, ReadFault, Statement, Text};

/// What is read, and then told in words.
pub(crate) trait Readable {
    /// Adds what it is.
    fn tell(&self, line: &mut Line) -> Result<(), Memory>;
}

impl Readable for Statement {
    fn tell(&self, line: &mut Line) -> Result<(), Memory> {
        push_statement(line, self)
    }
}

impl Readable for TopStatement {
    fn tell(&self, line: &mut Line) -> Result<(), Memory> {
        match self {
            TopStatement::Plain(statement) => push_statement(line, statement),
            TopStatement::Group(group) => push_group_use(line, group),
            TopStatement::Managed(managed) => push_managed_use(line, managed),
        }
    }
}

impl Readable for Acl {
    fn tell(&self, line: &mut Line) -> Result<(), Memory> {
        push_acl(line, self)
    }
}

impl Readable for Group {
    fn tell(&self, line: &mut Line) -> Result<(), Memory> {
        push_group(line, self)
    }
}

impl Readable for Bundle {
    fn tell(&self, line: &mut Line) -> Result<(), Memory> {
        push_bundle(line, self)
    }
}

// The value, behind how many statements were read where that is told.
fn value_line<T: Readable>(alloc: Global, value: &T, seen: Option<u32>) -> Result<Text, Memory> {
    let mut line = Line::new(alloc);
    if let Some(seen) = seen {
        line.number(u64::from(seen))?;
    }
    value.tell(&mut line)?;
    Ok(line.into_text())
}

/// The value, behind how many statements were read where that is told, or the fault.
pub(crate) fn told_line<T: Readable + Drop>(
    alloc: Global,
    read: Result<T, ReadFault>,
    seen: Option<u32>,
) -> Result<Text, Memory> {
    match &read {
        Ok(value) => value_line(alloc, value, seen),
        Err(fault) => fault_line(alloc, fault),
    }
}
