//! The addresses of ranges, as spans.

ghost use Rattle.std.specs.Prelude.{◌≡◌, ◌+◌, ◌-◌, ◌<◌, ◌≤◌, ◌%◌, ◌^◌, ◌++◌, All, IfOk, IfSome, OnOk};
ghost use Rattle.std.specs.Option.{option_to_list};
ghost use Rattle.std.specs.List.{filter_map};
ghost use Rattle.ip_cover.specs.Spans.{span_around as span_around_base, v4_span_of, v6_span_of};

use crate::span::Span6;
use std::alloc::Global;
use waf_model::{Address, Cidr, Memory};

/// The spans of the IPv4 ranges, in their order.
pub(crate) fn v4_spans(alloc: Global, ranges: &[Cidr]) -> Result<Vec<Span6>, Memory>
    ensures spans { IfOk result (λ spans. spans.items ≡ filter_map v4_span_of ranges.now) }
    ensures width { IfOk result (λ spans. All (λ span. span.last < 2 ^ 32) spans.items) }
{
    let mut spans = Vec::new(alloc);
    for range in ranges {
        push_some(&mut spans, v4_span(range))?;
    }
    Ok(spans)
}

/// Adds the span, if there is one. It fails only for want of memory.
fn push_some(spans: &mut Vec<Span6>, span: Option<Span6>) -> Result<(), Memory>
    ensures { OnOk result (spans.new.items ≡ spans.old.items ++ option_to_list span) }
{
    if let Some(span) = span {
        spans.push(span)?;
    }
    Ok(())
}

/// The spans of the IPv6 ranges, in their order.
pub(crate) fn v6_spans(alloc: Global, ranges: &[Cidr]) -> Result<Vec<Span6>, Memory>
    ensures { IfOk result (λ spans. spans.items ≡ filter_map v6_span_of ranges.now) }
{
    Ok(
        ranges
            .iter()
            .filter_map(|range| v6_span(range))
            .collect(alloc)?,
    )
}

#[tactic(auto, unfolding(crate::specs::Spans::v4_span_of))]
fn v4_span(range: &Cidr) -> Option<Span6>
    ensures span { result ≡ v4_span_of range.now }
    ensures width { IfSome result (λ span. span.last < 2 ^ 32) }
{
    match range.base {
        Address::V4(base) => Some(v4_span_at(base, range.bits)),
        Address::V6(_) => None,
    }
}

#[tactic(auto, unfolding(crate::specs::Spans::v6_span_of))]
fn v6_span(range: &Cidr) -> Option<Span6>
    ensures { result ≡ v6_span_of range.now }
{
    match range.base {
        Address::V4(_) => None,
        Address::V6(base) => Some(v6_span_at(base, range.bits)),
    }
}

fn v4_span_at(base: u32, bits: u8) -> Span6
    requires { bits ≤ 32 }
    ensures span { result ≡ span_around_base (2 ^ (32 - bits)) base }
    ensures width { result.last < 2 ^ 32 }
{
    span_around(power(32 - bits), u128::from(base))
}

fn v6_span_at(base: u128, bits: u8) -> Span6
    requires { bits ≤ 128 }
    ensures { result ≡ span_around_base (2 ^ (128 - bits)) base }
{
    if bits == 0 {
        return Span6 {
            first: 0,
            last: u128::MAX,
        };
    }
    span_around(power(128 - bits), base)
}

/// The power of two with this exponent.
fn power(exponent: u8) -> u128
    requires { exponent < 128 }
    ensures power { result ≡ 2 ^ exponent }
    ensures some { 0 < result }
{
    1 << exponent
}

/// As many numbers as the size that begin where the base does, its rest by the size left out.
fn span_around(size: u128, base: u128) -> Span6
    requires some { 0 < size }
    requires room { base - base % size + (size - 1) < 2 ^ 128 }
    ensures { result ≡ span_around_base size base }
{
    let first = base - base % size;
    Span6 {
        first,
        last: first + (size - 1),
    }
}
