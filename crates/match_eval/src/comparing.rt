//! Lengths that are compared with a size.

ghost use Rattle.std.specs.Prelude.{◌↔◌, IsTrue};
ghost use Rattle.waf_model.specs.Passes.{Compares};

use waf_model::Compare;

/// Whether the length compares so with the size, both in bytes.
pub(crate) fn compares(op: Compare, length: u64, size: u64) -> bool
    ensures { IsTrue result ↔ Compares op length size }
{
    match op {
        Compare::Eq => length == size,
        Compare::Ne => length != size,
        Compare::Le => length <= size,
        Compare::Lt => length < size,
        Compare::Ge => length >= size,
        Compare::Gt => length > size,
    }
}
