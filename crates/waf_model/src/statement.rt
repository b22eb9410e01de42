//! What a rule tests (API type `Statement`).

use crate::field::Field;
use crate::matching::{Compare, Forwarded, LabelScope, Position};
use crate::pattern::Pattern;
use crate::transform::Transform;
use waf_base::{Boxed, Items, Text};

/// A test of a request. Lists of transformations stand in the order of application.
#[derive(Debug, Drop)]
pub enum Statement {
    ByteMatch {
        search: Text,
        field: Field,
        transforms: Items<Transform>,
        position: Position,
    },
    Size {
        op: Compare,
        /// Bytes.
        size: u64,
        field: Field,
        transforms: Items<Transform>,
    },
    Regex {
        pattern: Pattern,
        field: Field,
        transforms: Items<Transform>,
    },
    /// A reference to a pattern set; `source` is the statement's compact JSON.
    PatternSet {
        arn: Text,
        field: Field,
        transforms: Items<Transform>,
        source: Text,
    },
    Ip {
        arn: Text,
        forwarded: Option<Forwarded>,
    },
    Label {
        scope: LabelScope,
        key: Text,
    },
    And(Items<Statement>),
    Or(Items<Statement>),
    Not(Boxed<Statement>),
    /// A rate-based statement. `custom_keys` is the number of elements of `CustomKeys`, or 2^32 - 1 where there are
    /// more.
    Rate {
        key: Text,
        custom_keys: u32,
        scope_down: Option<Boxed<Statement>>,
    },
    /// A statement whose truth is an answer; `cost` is in web ACL capacity units where it is known, and `arn` that of
    /// a reference to a pattern set.
    Opaque {
        key: Text,
        cost: Option<u64>,
        arn: Option<Text>,
    },
}
