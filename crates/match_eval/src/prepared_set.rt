//! An address set or a pattern set of a bundle, prepared.

ghost use Rattle.std.specs.Prelude.{◌≡◌, IfOk};

use crate::pattern_search::PatternSearch;
use crate::range_cover::RangeCover;
use std::alloc::Global;
use std::marker::Model;
use waf_model::{IpSet, Memory, Pattern, RegexSet};

/// An address set, and the cover of its ranges. Contracts see it as the set.
#[derive(Drop)]
pub(crate) struct AddressSet<'a> {
    set: &'a IpSet,
    cover: RangeCover<'a>,
}

impl<'a> Model for AddressSet<'a> {
    ghost use Rattle.std.specs.Prelude.{◌≡◌};
    ghost use Rattle.waf_model.specs.declared.sets.IpSet.{IpSet};

    ghost Value = { IpSet };

    ghost view = { λ s. s.set.now };

    ghost invariant = { λ s. s.cover ≡ s.set.now.ranges };
}

impl<'a> AddressSet<'a> {
    /// The set, prepared. It fails only for want of memory.
    pub(crate) fn of(alloc: Global, set: &'a IpSet) -> Result<AddressSet<'a>, Memory>
        ensures { IfOk result (λ prepared. prepared ≡ set.now) }
    {
        let cover = RangeCover::of(alloc, set.ranges.as_slice())?;
        Ok(AddressSet { set, cover })
    }

    /// The bytes of its ARN.
    pub(crate) fn arn(&self) -> &[u8]
        ensures { result.now ≡ self.now.arn }
    {
        self.set.arn.bytes()
    }

    /// The cover of its ranges.
    pub(crate) fn cover(&'a self) -> &'a RangeCover<'a>
        ensures { result.now ≡ self.now.ranges }
    {
        &self.cover
    }
}

/// A pattern set, and the search for each of its patterns, in their order. Contracts see it as the set.
#[derive(Drop)]
pub(crate) struct PatternSet<'a> {
    set: &'a RegexSet,
    patterns: Vec<PatternSearch<'a>>,
}

impl<'a> Model for PatternSet<'a> {
    ghost use Rattle.std.specs.Prelude.{◌≡◌};
    ghost use Rattle.waf_model.specs.contracts.sets.RegexSet as sets;
    ghost use Rattle.waf_model.specs.declared.sets.RegexSet.{RegexSet};

    ghost Value = { RegexSet };

    ghost coded = { sets.the_row.coded };

    ghost view = { λ s. s.set.now };

    ghost invariant = { λ s. s.patterns.items ≡ s.set.now.patterns };
}

impl<'a> PatternSet<'a> {
    /// The set, prepared. It fails only for want of memory.
    pub(crate) fn of(alloc: Global, set: &'a RegexSet) -> Result<PatternSet<'a>, Memory>
        ensures { IfOk result (λ prepared. prepared ≡ set.now) }
    {
        let patterns = searches_of(alloc, set.patterns.as_slice())?;
        Ok(PatternSet { set, patterns })
    }

    /// The bytes of its ARN.
    pub(crate) fn arn(&self) -> &[u8]
        ensures { result.now ≡ self.now.arn }
    {
        self.set.arn.bytes()
    }

    /// The search for each of its patterns, in their order.
    pub(crate) fn patterns(&'a self) -> &'a [PatternSearch<'a>]
        ensures { result.now ≡ self.now.patterns }
    {
        self.patterns.as_slice()
    }
}

/// The search for each of the patterns, in their order. It fails only for want of memory.
fn searches_of<'a>(alloc: Global, patterns: &'a [Pattern]) -> Result<Vec<PatternSearch<'a>>, Memory>
    ensures { IfOk result (λ all. all.items ≡ patterns.now) }
{
    let mut all = Vec::new(alloc);
    for pattern in patterns {
        all.push(PatternSearch::of(alloc, pattern)?)?;
    }
    Ok(all)
}
