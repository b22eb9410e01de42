//! The address sets and pattern sets of a bundle, prepared.

ghost use Rattle.match_eval.specs.Sets.{AreSetsOf};
ghost use Rattle.std.specs.Prelude.{◌≡◌, IfOk, option_map};
ghost use Rattle.waf_model.specs.Holds.{ranges_of, set_patterns};
ghost use Rattle.waf_model.specs.References.{addresses_of, patterns_of};
ghost use Rattle.waf_model.specs.declared.bundle.Bundle.{Bundle};

use crate::pattern_search::PatternSearch;
use crate::prepared_set::{AddressSet, PatternSet};
use crate::range_cover::RangeCover;
use std::alloc::Global;
use waf_model::{Bundle, IpSet, Memory, RegexSet, Text};

/// The address sets and pattern sets of a bundle, each prepared once: however many statements refer to a set, its cover
/// or its searches are kept once.
#[derive(Drop)]
pub struct Sets<'a> {
    /// The address sets of the bundle, in its order.
    pub(crate) addresses: Vec<AddressSet<'a>>,
    /// The pattern sets of the bundle, in its order.
    pub(crate) patterns: Vec<PatternSet<'a>>,
    /// The ranges of an address set that the bundle lacks: none.
    pub(crate) nowhere: RangeCover<'a>,
}

impl<'a> Sets<'a> {
    /// The sets of the bundle. It fails only for want of memory.
    pub fn of(alloc: Global, bundle: &'a Bundle) -> Result<Sets<'a>, Memory>
        ensures { IfOk result (λ sets. AreSetsOf bundle.now sets) }
    {
        let addresses = address_sets_of(alloc, bundle.ip_sets.as_slice())?;
        let patterns = pattern_sets_of(alloc, bundle.regex_sets.as_slice())?;
        let nowhere = RangeCover::of(alloc, &[])?;
        Ok(Sets {
            addresses,
            patterns,
            nowhere,
        })
    }

    /// The ranges of the first address set of that ARN, or none where the bundle has no such set (API type
    /// `IPSetReferenceStatement`).
    pub(crate) fn ranges(&'a self, arn: &Text) -> &'a RangeCover<'a>
        ensures { (bundle : Bundle) → AreSetsOf bundle self.now → result.now ≡ ranges_of bundle arn.now }
    {
        match address_set(self.addresses.as_slice(), arn) {
            Some(set) => set.cover(),
            None => self.nowhere(),
        }
    }

    /// The patterns of the first pattern set of that ARN, or none where the bundle has no such set (API type
    /// `RegexPatternSetReferenceStatement`).
    pub(crate) fn patterns(&'a self, arn: &Text) -> &'a [PatternSearch<'a>]
        ensures { (bundle : Bundle) → AreSetsOf bundle self.now → result.now ≡ set_patterns bundle arn.now }
    {
        match pattern_set(self.patterns.as_slice(), arn) {
            Some(set) => set.patterns(),
            None => &[],
        }
    }

    fn nowhere(&'a self) -> &'a RangeCover<'a>
        ensures { result.now ≡ self.now.nowhere }
    {
        &self.nowhere
    }
}

fn address_sets_of<'a>(alloc: Global, sets: &'a [IpSet]) -> Result<Vec<AddressSet<'a>>, Memory>
    ensures { IfOk result (λ all. all.items ≡ sets.now) }
{
    let mut all = Vec::new(alloc);
    for set in sets {
        all.push(AddressSet::of(alloc, set)?)?;
    }
    Ok(all)
}

fn pattern_sets_of<'a>(alloc: Global, sets: &'a [RegexSet]) -> Result<Vec<PatternSet<'a>>, Memory>
    ensures { IfOk result (λ all. all.items ≡ sets.now) }
{
    let mut all = Vec::new(alloc);
    for set in sets {
        all.push(PatternSet::of(alloc, set)?)?;
    }
    Ok(all)
}

fn address_set<'a>(sets: &'a [AddressSet<'a>], arn: &Text) -> Option<&'a AddressSet<'a>>
    ensures { option_map (λ set. set.now) result ≡ addresses_of sets.now arn.now }
{
    sets.iter().find(|addresses| addresses.arn() == arn.bytes())
}

fn pattern_set<'a>(sets: &'a [PatternSet<'a>], arn: &Text) -> Option<&'a PatternSet<'a>>
    ensures { option_map (λ set. set.now) result ≡ patterns_of sets.now arn.now }
{
    sets.iter().find(|patterns| patterns.arn() == arn.bytes())
}
