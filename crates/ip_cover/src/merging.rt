//! Spans that are merged where they overlap or touch.

ghost use Rattle.std.specs.Prelude.{◌≡◌, ◌+◌, ◌<◌, ◌≤◌, ℕ, All, IfOk, nat_le, max};
ghost use Rattle.std.specs.List.{list_any};
ghost use Rattle.ip_cover.specs.Merged.{merged_of, joined as joined_span};
ghost use Rattle.ip_cover.specs.Spans.{AreApart6, is_in6};

use crate::span::Span6;
use std::alloc::Global;
use waf_model::Memory;

/// The same numbers in spans that ascend, are disjoint and don't touch. Sorting takes no memory.
pub(crate) fn merged(alloc: Global, mut spans: Vec<Span6>) -> Result<Vec<Span6>, Memory>
    requires { All (λ span. span.first ≤ span.last) spans.items }
    ensures apart { IfOk result (λ merged. AreApart6 merged.items) }
    ensures same { IfOk result (λ merged. (n : ℕ) → list_any (is_in6 n) merged.items ≡ list_any (is_in6 n) spans.items) }
    ensures below { (bound : ℕ) → All (λ span. span.last < bound) spans.items → IfOk result (λ merged. All (λ span. span.last < bound) merged.items) }
{
    spans.sort_unstable_by_key(|span| span.first);
    merge_sorted(alloc, spans.as_slice())
}

/// Merges spans in the order of their first numbers.
fn merge_sorted(alloc: Global, spans: &[Span6]) -> Result<Vec<Span6>, Memory>
    ensures { IfOk result (λ merged. merged.items ≡ merged_of spans.now) }
{
    let mut merged = Vec::new(alloc);
    let [first, rest @ ..] = spans else {
        return Ok(merged);
    };
    let mut wider = *first;
    for span in rest {
        if reaches(&wider, span) {
            wider = joined(&wider, span);
        } else {
            merged.push(wider)?;
            wider = *span;
        }
    }
    merged.push(wider)?;
    Ok(merged)
}

/// Whether the second span begins at most right after the first ends.
fn reaches(wider: &Span6, span: &Span6) -> bool
    ensures { result ≡ nat_le span.now.first (wider.now.last + 1) }
{
    span.first <= wider.last || span.first - wider.last == 1
}

/// The first span, longer where the second goes on.
fn joined(wider: &Span6, span: &Span6) -> Span6
    ensures { result ≡ joined_span wider.now span.now }
{
    Span6 {
        first: wider.first,
        last: wider.last.max(span.last),
    }
}
