//! What a statement is looked at in.

use crate::bundle::Bundle;
use waf_base::Text;

/// The bundle, and the label namespace of the web ACL or group that the statement stands in.
#[derive(Clone, Copy, Debug)]
pub struct Context<'a> {
    pub bundle: &'a Bundle,
    pub namespace: &'a Text,
}
