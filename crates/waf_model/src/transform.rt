//! Text transformations (API type `TextTransformation`). What each does is this project's own definition.

/// A change of a text before it is tested.
#[derive(Clone, Copy, Debug, PartialEq, Eq)]
pub enum Transform {
    /// NONE: the text as it is.
    KeepAll,
    Lowercase,
    RemoveNulls,
    ReplaceNulls,
    CompressWhiteSpace,
    ReplaceComments,
    CmdLine,
    UrlDecode,
    HexDecode,
    Base64Decode,
    SqlHexDecode,
    HtmlEntityDecode,
    NormalizePath,
    Md5,
}
