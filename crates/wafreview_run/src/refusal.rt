//! The report of a text that is refused.

ghost use Rattle.std.specs.Prelude.{◌≡◌, ◌≢◌, ◌++◌, OnOk, IfOk};
ghost use Rattle.waf_model.specs.declared.read_fault.ReadFault.TheVariants as faults;
ghost use Rattle.wafreview_run.specs.Refusal.{IsLineRefused, IsRefused};
ghost use Rattle.wafreview_run.specs.Texts.{fault_text, role_name, refused_line_text, refused_text};

use crate::decimal::push_decimal;
use crate::letting_go::let_go;
use crate::report::Report;
use crate::role::{Role, role_word};
use std::alloc::Global;
use waf_model::{Memory, ReadFault, Text};

/// The report of a text with a fault; want of memory is no fault of the text.
pub(crate) fn refused(alloc: Global, role: Role, fault: &ReadFault) -> Result<Report, Memory>
    ensures refused { IfOk result (λ report. IsRefused role fault.now report.code report.text) }
    ensures memory { IfOk result (λ _. fault.now ≢ faults.Memory) }
{
    if let ReadFault::Memory = fault {
        return Err(Memory);
    }
    Ok(Report {
        code: 3,
        text: refused_line(alloc, role, fault)?,
    })
}

/// The report of a reading that failed; want of memory is no fault of the text.
pub(crate) fn refusal(alloc: Global, role: Role, fault: ReadFault) -> Result<Report, Memory>
    ensures refused { IfOk result (λ report. IsRefused role fault report.code report.text) }
    ensures memory { IfOk result (λ _. fault ≢ faults.Memory) }
{
    let report = refused(alloc, role, &fault);
    let_go(fault);
    report
}

/// The report of a log whose line of that number has a fault; want of memory is no fault of the line.
pub(crate) fn refused_at(alloc: Global, number: u64, fault: ReadFault) -> Result<Report, Memory>
    ensures { IfOk result (λ report. IsLineRefused number fault report.code report.text) }
{
    let text = refused_line_at(alloc, number, &fault);
    let_go(fault);
    Ok(Report {
        code: 3,
        text: text?,
    })
}

/// The report of what can't be done yet.
pub(crate) fn not_built(alloc: Global, role: Role, path: Text) -> Result<Report, Memory>
    ensures { IfOk result (λ report. IsRefused role (faults.NotBuilt path) report.code report.text) }
{
    refusal(alloc, role, ReadFault::NotBuilt(path))
}

/// The line of a text with a fault.
fn refused_line(alloc: Global, role: Role, fault: &ReadFault) -> Result<Text, Memory>
    ensures { IfOk result (λ text. text ≡ refused_text role fault.now) }
{
    let mut text = Text::new(alloc);
    text.push(b"refused ")?;
    text.push(role_word(role).as_bytes())?;
    text.push(b" ")?;
    push_fault(alloc, &mut text, fault)?;
    text.push(b"\n")?;
    Ok(text)
}

/// The line of a log's line with a fault.
fn refused_line_at(alloc: Global, number: u64, fault: &ReadFault) -> Result<Text, Memory>
    ensures { IfOk result (λ text. text ≡ refused_line_text number fault.now) }
{
    let mut text = Text::new(alloc);
    text.push(b"refused log:")?;
    text.push_number(alloc, number)?;
    text.push(b" ")?;
    push_fault(alloc, &mut text, fault)?;
    text.push(b"\n")?;
    Ok(text)
}

/// Writes a code and the text that is its detail.
fn push_detail(text: &mut Text, code: &str, detail: &Text) -> Result<(), Memory>
    ensures { OnOk result (text.new ≡ text.old ++ (code.now ++ detail.now)) }
{
    text.push(code.as_bytes())?;
    text.push(detail.bytes())?;
    Ok(())
}

/// Writes the code and the priority of two rules.
fn push_priority(alloc: Global, text: &mut Text, priority: u32) -> Result<(), Memory>
    ensures { OnOk result (text.new ≡ text.old ++ fault_text (faults.SamePriority priority)) }
{
    text.push(b"E5 ")?;
    push_decimal(alloc, text, priority)?;
    Ok(())
}

/// Writes the code, the path and the number of a limit.
fn push_limit(alloc: Global, text: &mut Text, path: &Text, limit: u32) -> Result<(), Memory>
    ensures { OnOk result (text.new ≡ text.old ++ fault_text (faults.Limit path.now limit)) }
{
    push_detail(text, "E11 ", path)?;
    text.push(b" ")?;
    push_decimal(alloc, text, limit)?;
    Ok(())
}

/// Writes a fault's code and detail.
fn push_fault(alloc: Global, text: &mut Text, fault: &ReadFault) -> Result<(), Memory>
    ensures { OnOk result (text.new ≡ text.old ++ fault_text fault.now) }
{
    match fault {
        ReadFault::Json => text.push(b"E1"),
        ReadFault::Shape(path) => push_detail(text, "E2 ", path),
        ReadFault::Number(path) => push_detail(text, "E3 ", path),
        ReadFault::Name(path) => push_detail(text, "E4 ", path),
        ReadFault::SamePriority(priority) => push_priority(alloc, text, *priority),
        ReadFault::Action(path) => push_detail(text, "E6 ", path),
        ReadFault::Nested(path) => push_detail(text, "E7 ", path),
        ReadFault::Missing(arn) => push_detail(text, "E8 ", arn),
        ReadFault::Base64(path) => push_detail(text, "E9 ", path),
        ReadFault::Address(path) => push_detail(text, "E10 ", path),
        ReadFault::Limit(path, limit) => push_limit(alloc, text, path, *limit),
        ReadFault::Namespace(path) => push_detail(text, "E12 ", path),
        ReadFault::OneStatement(path) => push_detail(text, "E13 ", path),
        ReadFault::NotBuilt(path) => push_detail(text, "E0 ", path),
        ReadFault::Memory => Ok(()),
    }
}
