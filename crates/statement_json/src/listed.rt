//! A text transformation as it is listed.

use waf_model::Transform;

/// A text transformation in the order of the file: its priority, and what it does where that is known.
#[derive(Clone, Copy, Drop)]
pub(crate) struct Listed {
    pub(crate) priority: u32,
    /// None where the transformation is not evaluated.
    pub(crate) transform: Option<Transform>,
}
