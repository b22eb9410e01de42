//! The kinds of statements.

ghost use Rattle.serde_json.specs.View.{view};
ghost use Rattle.statement_json.specs.Kinds.{is_top_kind, kind_of as kind_in, member_of, other_kind_of as other_kind_in};
ghost use Rattle.std.specs.Prelude.{◌≡◌};

use json_view::is_there;
use serde_json::Value;

/// What a statement is, where its kind is known here.
#[derive(Clone, Copy, Drop)]
pub(crate) enum StatementKind {
    ByteMatch,
    SizeConstraint,
    RegexMatch,
    RegexPatternSetReference,
    IpSetReference,
    LabelMatch,
    And,
    Or,
    Not,
    RateBased,
    RuleGroupReference,
    ManagedRuleGroup,
    SqliMatch,
    XssMatch,
    GeoMatch,
    AsnMatch,
}

impl StatementKind {
    // The name of the statement's one member.
    pub(crate) fn member(self) -> &'static str
        ensures { result.now ≡ member_of self }
    {
        match self {
            StatementKind::ByteMatch => "ByteMatchStatement",
            StatementKind::SizeConstraint => "SizeConstraintStatement",
            StatementKind::RegexMatch => "RegexMatchStatement",
            StatementKind::RegexPatternSetReference => "RegexPatternSetReferenceStatement",
            StatementKind::IpSetReference => "IPSetReferenceStatement",
            StatementKind::LabelMatch => "LabelMatchStatement",
            StatementKind::And => "AndStatement",
            StatementKind::Or => "OrStatement",
            StatementKind::Not => "NotStatement",
            StatementKind::RateBased => "RateBasedStatement",
            StatementKind::RuleGroupReference => "RuleGroupReferenceStatement",
            StatementKind::ManagedRuleGroup => "ManagedRuleGroupStatement",
            StatementKind::SqliMatch => "SqliMatchStatement",
            StatementKind::XssMatch => "XssMatchStatement",
            StatementKind::GeoMatch => "GeoMatchStatement",
            StatementKind::AsnMatch => "AsnMatchStatement",
        }
    }

    // Whether it stands only at the top of a rule.
    pub(crate) fn is_top(self) -> bool
        ensures { result ≡ is_top_kind self }
    {
        match self {
            StatementKind::RateBased => true,
            StatementKind::RuleGroupReference => true,
            StatementKind::ManagedRuleGroup => true,
            _ => false,
        }
    }
}

// The kind of the statement, if it is known.
#[tactic(auto, unfolding(crate::specs::Kinds::kind_of))]
pub(crate) fn kind_of(v: &Value) -> Option<StatementKind>
    ensures { result ≡ kind_in (view v.now) }
{
    if is_there(v, "ByteMatchStatement") {
        Some(StatementKind::ByteMatch)
    } else if is_there(v, "SizeConstraintStatement") {
        Some(StatementKind::SizeConstraint)
    } else if is_there(v, "RegexMatchStatement") {
        Some(StatementKind::RegexMatch)
    } else if is_there(v, "RegexPatternSetReferenceStatement") {
        Some(StatementKind::RegexPatternSetReference)
    } else if is_there(v, "IPSetReferenceStatement") {
        Some(StatementKind::IpSetReference)
    } else if is_there(v, "LabelMatchStatement") {
        Some(StatementKind::LabelMatch)
    } else if is_there(v, "AndStatement") {
        Some(StatementKind::And)
    } else if is_there(v, "OrStatement") {
        Some(StatementKind::Or)
    } else if is_there(v, "NotStatement") {
        Some(StatementKind::Not)
    } else {
        other_kind_of(v)
    }
}

// The kind of a statement that stands at the top of a rule alone, or is always an answer, if it is known.
fn other_kind_of(v: &Value) -> Option<StatementKind>
    ensures { result ≡ other_kind_in (view v.now) }
{
    if is_there(v, "RateBasedStatement") {
        Some(StatementKind::RateBased)
    } else if is_there(v, "RuleGroupReferenceStatement") {
        Some(StatementKind::RuleGroupReference)
    } else if is_there(v, "ManagedRuleGroupStatement") {
        Some(StatementKind::ManagedRuleGroup)
    } else if is_there(v, "SqliMatchStatement") {
        Some(StatementKind::SqliMatch)
    } else if is_there(v, "XssMatchStatement") {
        Some(StatementKind::XssMatch)
    } else if is_there(v, "GeoMatchStatement") {
        Some(StatementKind::GeoMatch)
    } else if is_there(v, "AsnMatchStatement") {
        Some(StatementKind::AsnMatch)
    } else {
        None
    }
}
