//! What a rule does, and what a web ACL decides.

/// What a matching rule does (API types `RuleAction` and `DefaultAction`).
#[derive(Clone, Copy, Debug, PartialEq, Eq)]
pub enum Action {
    Allow,
    /// Refuses the request with this HTTP status code.
    Block { code: u32 },
    Count,
    Captcha,
    Challenge,
}

/// What a web ACL decides of a request, in the order Allow, Block by ascending code, Captcha, Challenge.
#[derive(Clone, Copy, Debug, PartialEq, Eq, PartialOrd, Ord)]
pub enum Decision {
    Allow,
    /// The request is refused with this HTTP status code.
    Block { code: u32 },
    Captcha,
    Challenge,
}
