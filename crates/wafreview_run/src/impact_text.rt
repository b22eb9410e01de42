//! The text of what a log says of two revisions.

ghost use Rattle.std.specs.Prelude.{◌≡◌, ◌++◌, IfOk, OnOk, length};
ghost use Rattle.std.specs.List.{flat_map};
ghost use Rattle.wafreview_run.specs.ImpactText.{change_line, impact_line, impact_text};

use acl_eval::write_decision;
use impact_replay::{Change, Impact};
use std::alloc::Global;
use waf_model::{Memory, Text};

/// A line for each request that is decided otherwise, and then the line of counts; each ends in one newline byte. It fails
/// only for want of memory.
pub(crate) fn write_impact(alloc: Global, impact: &Impact) -> Result<Text, Memory>
    ensures { IfOk result (λ text. text ≡ impact_text impact.now) }
{
    let mut text = Text::new(alloc);
    push_changes(alloc, &mut text, impact.changed.as_slice())?;
    push_counts(
        alloc,
        &mut text,
        impact.lines,
        impact.changed.as_slice().len(),
    )?;
    Ok(text)
}

fn push_changes(alloc: Global, text: &mut Text, changes: &[Change]) -> Result<(), Memory>
    ensures { OnOk result (text.new ≡ text.old ++ flat_map change_line changes.now) }
{
    for change in changes {
        push_change(alloc, text, *change)?;
    }
    Ok(())
}

fn push_change(alloc: Global, text: &mut Text, change: Change) -> Result<(), Memory>
    ensures { OnOk result (text.new ≡ text.old ++ change_line change) }
{
    text.push(b"line ")?;
    text.push_number(alloc, change.line)?;
    text.push(b" old ")?;
    write_decision(alloc, text, change.old)?;
    text.push(b" new ")?;
    write_decision(alloc, text, change.new)?;
    text.push(b"\n")?;
    Ok(())
}

fn push_counts(alloc: Global, text: &mut Text, lines: u64, changed: usize) -> Result<(), Memory>
    ensures { OnOk result (text.new ≡ text.old ++ impact_line lines changed) }
{
    text.push(b"impact lines ")?;
    text.push_number(alloc, lines)?;
    text.push(b" changed ")?;
    text.push_number(alloc, changed as u64)?;
    text.push(b"\n")?;
    Ok(())
}
