//! How a value is let go of.

/// Lets a value go. It is of any type, so that a function that owns a bundle lets go of it in one step, and not by each of
/// its parts at each of its own ends (this project's own).
pub(crate) fn let_go<T: Drop>(_value: T) {}
