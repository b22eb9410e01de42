//! How search strings stand in a bundle.

/// How the search strings of byte matches are written (API field `SearchString`, a blob).
#[derive(Clone, Copy, Debug, PartialEq, Eq)]
pub enum Encoding {
    /// Canonical base64 of the standard alphabet, as the API prints blobs.
    Base64,
    /// The text itself.
    Plain,
}
