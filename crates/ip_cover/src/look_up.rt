//! Covers are made of ranges, and looked up.

ghost use Rattle.std.specs.Prelude.{◌≡◌, ◌↔◌, IsTrue, IfOk, ℕ};
ghost use Rattle.std.specs.List.{list_any, filter_map};
ghost use Rattle.waf_model.specs.AddressRange.{IsInSome};
ghost use Rattle.waf_model.specs.declared.address.Address.{Address as AddressData};
ghost use Rattle.ip_cover.specs.Cover.{IsCovered};
ghost use Rattle.ip_cover.specs.Spans.{AreApart4, AreApart6, is_in4, is_in6, side, v4_span_of, v6_span_of};

use crate::cover::IpCover;
use crate::merging::merged;
use crate::narrowing::narrowed;
use crate::range_spans::{v4_spans, v6_spans};
use crate::span::{Span4, Span6};
use std::alloc::Global;
use std::cmp::Ordering;
use waf_model::{Address, Cidr, Memory};

impl IpCover {
    /// The cover of the ranges. It takes the time of sorting them, and fails only for want of memory.
    pub fn of(alloc: Global, ranges: &[Cidr]) -> Result<IpCover, Memory>
        ensures { IfOk result (λ cover. (address : AddressData) → IsCovered cover address ↔ IsInSome ranges.now address) }
    {
        let v4 = v4_cover(alloc, ranges)?;
        let v6 = v6_cover(alloc, ranges)?;
        Ok(IpCover { v4, v6 })
    }

    /// Whether the address is covered, by a binary search.
    pub fn holds(&self, address: &Address) -> bool
        ensures { IsTrue result ↔ IsCovered self.now address.now }
    {
        match *address {
            Address::V4(number) => v4_has(self.v4.as_slice(), number),
            Address::V6(number) => v6_has(self.v6.as_slice(), number),
        }
    }

    /// The IPv4 addresses that are covered.
    pub fn v4(&self) -> &[Span4]
        ensures spans { result.now ≡ self.now.v4.items }
        ensures apart { AreApart4 result.now }
    {
        self.v4.as_slice()
    }

    /// The IPv6 addresses that are covered.
    pub fn v6(&self) -> &[Span6]
        ensures spans { result.now ≡ self.now.v6.items }
        ensures apart { AreApart6 result.now }
    {
        self.v6.as_slice()
    }
}

fn v4_cover(alloc: Global, ranges: &[Cidr]) -> Result<Vec<Span4>, Memory>
    ensures apart { IfOk result (λ spans. AreApart4 spans.items) }
    ensures same { IfOk result (λ spans. (n : ℕ) → list_any (is_in4 n) spans.items ≡ list_any (is_in6 n) (filter_map v4_span_of ranges.now)) }
{
    let spans = v4_spans(alloc, ranges)?;
    let merged = merged(alloc, spans)?;
    narrowed(alloc, merged.as_slice())
}

fn v6_cover(alloc: Global, ranges: &[Cidr]) -> Result<Vec<Span6>, Memory>
    ensures apart { IfOk result (λ spans. AreApart6 spans.items) }
    ensures same { IfOk result (λ spans. (n : ℕ) → list_any (is_in6 n) spans.items ≡ list_any (is_in6 n) (filter_map v6_span_of ranges.now)) }
{
    let spans = v6_spans(alloc, ranges)?;
    merged(alloc, spans)
}

fn v4_has(spans: &[Span4], number: u32) -> bool
    requires { AreApart4 spans.now }
    ensures { result ≡ list_any (is_in4 number) spans.now }
{
    spans.binary_search_by(|span| v4_side(span, number)).is_ok()
}

fn v6_has(spans: &[Span6], number: u128) -> bool
    requires { AreApart6 spans.now }
    ensures { result ≡ list_any (is_in6 number) spans.now }
{
    spans.binary_search_by(|span| v6_side(span, number)).is_ok()
}

/// Where the span stands to the number.
fn v4_side(span: &Span4, number: u32) -> Ordering
    ensures { result ≡ side number span.now.first span.now.last }
{
    side_of(
        u128::from(span.first),
        u128::from(span.last),
        u128::from(number),
    )
}

/// Where the span stands to the number.
fn v6_side(span: &Span6, number: u128) -> Ordering
    ensures { result ≡ side number span.now.first span.now.last }
{
    side_of(span.first, span.last, number)
}

/// Where the numbers from the first to the last stand to the number.
fn side_of(first: u128, last: u128, number: u128) -> Ordering
    ensures { result ≡ side number first last }
{
    if last < number {
        Ordering::Less
    } else if number < first {
        Ordering::Greater
    } else {
        Ordering::Equal
    }
}
