//! The parts of a request that a statement looks at (API type `FieldToMatch`).

use waf_base::{Items, Text};

/// The part of a request that a statement looks at.
#[derive(Debug, Drop)]
pub enum Field {
    Method,
    UriPath,
    QueryString,
    /// The header of that name.
    Header(Text),
    /// The query arguments of that name.
    Argument(Text),
    AllArguments,
    Body(Oversize),
    Headers(Filter, Part, Oversize),
    Cookies(Filter, Part, Oversize),
}

/// Which headers or cookies are looked at (API types `HeaderMatchPattern`, `CookieMatchPattern`).
#[derive(Debug, Drop)]
pub enum Filter {
    All,
    Included(Items<Text>),
    Excluded(Items<Text>),
}

/// What is looked at of a header or cookie (API field `MatchScope`).
#[derive(Clone, Copy, Debug, PartialEq, Eq)]
pub enum Part {
    Key,
    Value,
    Both,
}

/// What a statement does where the part is larger than the web ACL inspects (API field `OversizeHandling`).
#[derive(Clone, Copy, Debug, PartialEq, Eq)]
pub enum Oversize {
    Continue,
    Match,
    NoMatch,
}
