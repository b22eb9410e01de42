//! The words of a statement that say how a text is tested.

use waf_base::Text;

/// Where the search string must stand in the text (API field `PositionalConstraint`).
#[derive(Clone, Copy, Debug, PartialEq, Eq)]
pub enum Position {
    Exactly,
    Starts,
    Ends,
    Contains,
    Word,
}

/// How a length is compared (API field `ComparisonOperator`).
#[derive(Clone, Copy, Debug, PartialEq, Eq)]
pub enum Compare {
    Eq,
    Ne,
    Le,
    Lt,
    Ge,
    Gt,
}

/// Whether a label key names one label or all below it (API field `Scope`).
#[derive(Clone, Copy, Debug, PartialEq, Eq)]
pub enum LabelScope {
    Label,
    Namespace,
}

/// A header whose addresses stand for the client's (API type `IPSetForwardedIPConfig`).
#[derive(Debug, Drop)]
pub struct Forwarded {
    pub header: Text,
    /// Whether the statement holds where no piece that is looked at is in the set and one of them is no address. An
    /// absent header never matches.
    pub fallback: bool,
    pub position: ForwardedPosition,
}

/// Which addresses of the header are looked at.
#[derive(Clone, Copy, Debug, PartialEq, Eq)]
pub enum ForwardedPosition {
    First,
    Last,
    Any,
}
