//! Names of headers, arguments and cookies.

ghost use Rattle.waf_model.specs.Shown.{selects};
ghost use Rattle.std.specs.List.{list_any};
ghost use Rattle.std.specs.Prelude.{◌≡◌, option_map};
ghost use Rattle.std.specs.Str.{bytes_eq, str_eq_ignore_ascii_case};
ghost use Rattle.waf_model.specs.Within.{value_of_header};

use waf_model::{Filter, Request, Text};

// Whether the names are the same without regard to the case of ASCII letters.
#[tactic(auto, using(crate::proofs::Cases::same_without_case))]
pub(crate) fn same_without_case(name: &[u8], other: &[u8]) -> bool
    ensures { result ≡ str_eq_ignore_ascii_case name.now other.now }
{
    name.eq_ignore_ascii_case(other)
}

// Whether the name is one of these, without regard to the case of ASCII letters.
fn is_listed_without_case(names: &[Text], name: &[u8]) -> bool
    ensures { result ≡ list_any (str_eq_ignore_ascii_case name.now) names.now }
{
    names
        .iter()
        .any(|other| same_without_case(name, other.bytes()))
}

// Whether the name is one of these, byte for byte.
fn is_listed(names: &[Text], name: &[u8]) -> bool
    ensures { result ≡ list_any (bytes_eq name.now) names.now }
{
    names.iter().any(|other| name == other.bytes())
}

/// Whether the filter selects a header of that name.
pub(crate) fn selects_header(filter: &Filter, name: &[u8]) -> bool
    ensures { result ≡ selects str_eq_ignore_ascii_case filter.now name.now }
{
    match filter {
        Filter::All => true,
        Filter::Included(names) => is_listed_without_case(names.as_slice(), name),
        Filter::Excluded(names) => !is_listed_without_case(names.as_slice(), name),
    }
}

/// Whether the filter selects a cookie of that name.
pub(crate) fn selects_cookie(filter: &Filter, name: &[u8]) -> bool
    ensures { result ≡ selects bytes_eq filter.now name.now }
{
    match filter {
        Filter::All => true,
        Filter::Included(names) => is_listed(names.as_slice(), name),
        Filter::Excluded(names) => !is_listed(names.as_slice(), name),
    }
}

/// The value of the first header of that name, in letters of either case, if the request has one (RFC 9110, "Field
/// Names").
pub fn header_value<'a>(request: &'a Request, name: &[u8]) -> Option<&'a [u8]>
    ensures { option_map (λ value. value.now) result ≡ value_of_header request.now name.now }
{
    for header in request.headers.as_slice() {
        if same_without_case(header.name.bytes(), name) {
            return Some(header.value.bytes());
        }
    }
    None
}
