//! IP sets and pattern sets.

use crate::address::Cidr;
use crate::pattern::Pattern;
use waf_base::{Items, Text};

/// An IP set (API type `IPSet`).
#[derive(Debug, Drop)]
pub struct IpSet {
    pub arn: Text,
    pub ranges: Items<Cidr>,
}

/// A pattern set (API type `RegexPatternSet`): its texts, and the patterns of those that are of the subset.
#[derive(Debug, Drop)]
pub struct RegexSet {
    pub arn: Text,
    pub texts: Items<Text>,
    pub patterns: Items<Pattern>,
    /// Whether some text is not of the subset.
    pub outside: bool,
}
