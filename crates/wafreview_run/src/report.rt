//! What is due for a command.

use waf_model::Text;

/// A status and the text that goes with it.
#[derive(Debug, Drop)]
pub(crate) struct Report {
    pub code: u8,
    pub text: Text,
}
