//! IPv4 spans whose numbers are held in their own width.

ghost use Rattle.std.specs.Prelude.{◌≡◌, ◌<◌, ◌≤◌, ◌^◌, All, IfOk, map};
ghost use Rattle.ip_cover.specs.Spans.{wide};

use crate::span::{Span4, Span6};
use std::alloc::Global;
use waf_model::Memory;

/// The same spans with numbers of 32 bits.
pub(crate) fn narrowed(alloc: Global, spans: &[Span6]) -> Result<Vec<Span4>, Memory>
    requires { All (λ span. (span.first < 2 ^ 32) × (span.last < 2 ^ 32)) spans.now }
    ensures { IfOk result (λ narrow. map wide narrow.items ≡ spans.now) }
{
    let mut narrow = Vec::new(alloc);
    for span in spans {
        narrow.push(Span4 {
            first: span.first as u32,
            last: span.last as u32,
        })?;
    }
    Ok(narrow)
}
