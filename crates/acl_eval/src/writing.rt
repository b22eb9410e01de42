//! The text of an outcome.

ghost use Rattle.std.specs.Prelude.{◌≡◌, ◌++◌, IfOk, OnOk, codes, decimal};
ghost use Rattle.std.specs.List.{flat_map};
ghost use Rattle.waf_model.specs.Printed.{outcome_text, decision_name, decision_line, rule_line, capacity_line, label_line, unknown_part};

use std::alloc::Global;
use waf_model::{Capacity, Decision, Ender, Memory, Outcome, Text};

/// The lines of an outcome and a capacity: the decision, what ended the evaluation, each label, the capacity. Each
/// line ends in one newline byte. It fails only for want of memory.
pub fn write_outcome(alloc: Global, outcome: &Outcome, capacity: &Capacity) -> Result<Text, Memory>
    ensures { IfOk result (λ text. text ≡ outcome_text outcome.now capacity.now) }
{
    let mut text = Text::new(alloc);
    write_decision_line(alloc, &mut text, outcome.decision)?;
    write_ender(alloc, &mut text, &outcome.ender)?;
    write_labels(&mut text, outcome.labels.as_slice())?;
    write_capacity(alloc, &mut text, capacity)?;
    Ok(text)
}

/// Adds a decision's name as it is printed. It fails only for want of memory.
pub fn write_decision(alloc: Global, text: &mut Text, decision: Decision) -> Result<(), Memory>
    ensures { OnOk result (text.new ≡ text.old ++ decision_name decision) }
{
    match decision {
        Decision::Allow => text.push(b"ALLOW"),
        Decision::Block { code } => {
            text.push(b"BLOCK ")?;
            text.push_number(alloc, u64::from(code))
        }
        Decision::Captcha => text.push(b"CAPTCHA"),
        Decision::Challenge => text.push(b"CHALLENGE"),
    }
}

fn write_decision_line(alloc: Global, text: &mut Text, decision: Decision) -> Result<(), Memory>
    ensures { OnOk result (text.new ≡ text.old ++ decision_line decision) }
{
    text.push(b"decision ")?;
    write_decision(alloc, text, decision)?;
    text.push(b"\n")
}

fn write_ender(alloc: Global, text: &mut Text, ender: &Ender) -> Result<(), Memory>
    ensures { OnOk result (text.new ≡ text.old ++ rule_line ender.now) }
{
    match ender {
        Ender::Default => text.push(b"rule default\n"),
        Ender::Rule { priority, name } => {
            text.push(b"rule ")?;
            write_rule(alloc, text, *priority, name)?;
            text.push(b"\n")
        }
        Ender::Inner {
            priority,
            name,
            inner_priority,
            inner_name,
        } => {
            text.push(b"rule ")?;
            write_rule(alloc, text, *priority, name)?;
            text.push(b" / ")?;
            write_rule(alloc, text, *inner_priority, inner_name)?;
            text.push(b"\n")
        }
    }
}

/// A rule's priority and name, with a space between.
fn write_rule(alloc: Global, text: &mut Text, priority: u32, name: &Text) -> Result<(), Memory>
    ensures { OnOk result (text.new ≡ text.old ++ decimal priority ++ codes " " ++ name.now) }
{
    text.push_number(alloc, u64::from(priority))?;
    text.push(b" ")?;
    text.push(name.bytes())
}

fn write_labels(text: &mut Text, labels: &[Text]) -> Result<(), Memory>
    ensures { OnOk result (text.new ≡ text.old ++ flat_map label_line labels.now) }
{
    for label in labels {
        text.push(b"label ")?;
        text.push(label.bytes())?;
        text.push(b"\n")?;
    }
    Ok(())
}

fn write_unknown(alloc: Global, text: &mut Text, unknown: u32) -> Result<(), Memory>
    ensures { OnOk result (text.new ≡ text.old ++ unknown_part unknown) }
{
    if unknown == 0 {
        return Ok(());
    }
    text.push(b" unknown ")?;
    text.push_number(alloc, u64::from(unknown))
}

/// Adds the line of a capacity: the known web ACL capacity units, and how many costs are unknown where some are. It fails
/// only for want of memory.
pub fn write_capacity(alloc: Global, text: &mut Text, capacity: &Capacity) -> Result<(), Memory>
    ensures { OnOk result (text.new ≡ text.old ++ capacity_line capacity.now) }
{
    text.push(b"capacity ")?;
    text.push_number(alloc, capacity.known)?;
    write_unknown(alloc, text, capacity.unknown)?;
    text.push(b"\n")
}
