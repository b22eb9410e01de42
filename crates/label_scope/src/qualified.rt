//! Labels behind their namespace.

ghost use Rattle.std.specs.Prelude.{◌≡◌, ◌++◌, IfOk};

use std::alloc::Global;
use waf_model::{Memory, Text};

/// The label behind its namespace. It fails only for want of memory.
pub fn qualify(alloc: Global, namespace: &Text, label: &Text) -> Result<Text, Memory>
    ensures { IfOk result (λ qualified. qualified ≡ namespace.now ++ label.now) }
{
    let mut qualified = Text::of(alloc, namespace.bytes())?;
    qualified.push(label.bytes())?;
    Ok(qualified)
}
