//! What a field to match is.

use waf_model::Field;

/// The field to match of a statement, as far as it matters for its meaning and its cost.
#[derive(Drop)]
pub(crate) enum FieldKind {
    /// A field that is evaluated.
    Known(Field),
    /// `JsonBody`, which isn't evaluated and doubles the cost.
    JsonBody,
    /// A field that isn't evaluated, or a header whose name no request has.
    Other,
}
