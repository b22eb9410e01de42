//! Statements that are prepared for any number of requests.

use crate::range_cover::RangeCover;
use crate::text_test::Asked;
use waf_model::{Boxed, Field, Forwarded, Items, LabelScope, Text, Transform};

/// A statement of a bundle, prepared. It refers to the statement's parts, and to the sets of the bundle.
#[derive(Drop)]
pub(crate) enum Prepared<'a> {
    /// Some text of the field passes after the transformations.
    Tested {
        asked: Asked<'a>,
        field: &'a Field,
        transforms: &'a [Transform],
    },
    /// The client's address, or one that a header forwards, is covered.
    Addressed {
        cover: &'a RangeCover<'a>,
        forwarded: &'a Option<Forwarded>,
    },
    /// A label was added before.
    Labelled {
        scope: LabelScope,
        key: &'a Text,
    },
    /// The answer to the key says so.
    Answered(&'a Text),
    All(Items<Prepared<'a>>),
    Any(Items<Prepared<'a>>),
    Not(Boxed<Prepared<'a>>),
    /// The first holds, and then the answer to the key says so.
    Scoped(Boxed<Prepared<'a>>, &'a Text),
}
