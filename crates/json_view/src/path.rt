//! Paths: `$`, followed by `.Member` and `[index]`.

ghost use Rattle.std.specs.Prelude.{◌≡◌, IfOk};
ghost use Rattle.waf_model.specs.Json.{member_path as member_behind, index_path as index_behind};

use std::alloc::Global;
use waf_model::{Memory, Text};

/// A text of the same bytes. It fails only for want of memory.
pub fn copy_of(alloc: Global, text: &Text) -> Result<Text, Memory>
    ensures { IfOk result (λ copy. copy ≡ text.now) }
{
    Text::of(alloc, text.bytes())
}

/// `.` and the member's name, after the path. It fails only for want of memory.
pub fn member_path(alloc: Global, path: &Text, name: &str) -> Result<Text, Memory>
    ensures { IfOk result (λ extended. extended ≡ member_behind path.now name.now) }
{
    let mut extended = copy_of(alloc, path)?;
    extended.push(b".")?;
    extended.push(name.as_bytes())?;
    Ok(extended)
}

/// `[`, the index and `]`, after the path. It fails only for want of memory.
pub fn index_path(alloc: Global, path: &Text, index: u64) -> Result<Text, Memory>
    ensures { IfOk result (λ extended. extended ≡ index_behind path.now index) }
{
    let mut extended = copy_of(alloc, path)?;
    extended.push(b"[")?;
    extended.push_number(alloc, index)?;
    extended.push(b"]")?;
    Ok(extended)
}
