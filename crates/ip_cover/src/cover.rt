//! A list of address ranges, merged.

ghost use Rattle.ip_cover.specs.Spans.{AreApart4, AreApart6};

use crate::span::{Span4, Span6};

/// The addresses of a list of ranges, for look-ups: spans that ascend, are disjoint and don't touch.
#[derive(Debug, Drop)]
pub struct IpCover {
    pub(crate) v4: Vec<Span4>,
    pub(crate) v6: Vec<Span6>,
    ghost v4_apart: { AreApart4 v4.items },
    ghost v6_apart: { AreApart6 v6.items },
}
