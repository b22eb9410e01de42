//! Whether a row is about a web ACL or about a rule group.

use crate::given::word;
use crate::row_fault::RowFault;
use waf_model::Text;

/// What is read, or whose rule has the statement that is read.
#[derive(Clone, Copy, Debug, PartialEq, Eq)]
pub(crate) enum Owner {
    WebAcl,
    Group,
}

/// The one that the first field names.
pub(crate) fn owner_at(given: &[Text]) -> Result<Owner, RowFault> {
    match word(given, 0)? {
        "web_acl" => Ok(Owner::WebAcl),
        "group" => Ok(Owner::Group),
        _ => Err(RowFault::Given),
    }
}
