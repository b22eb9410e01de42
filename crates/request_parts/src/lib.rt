//! Recorded requests: how they are read and written, and which of their parts a statement looks at.
#![tactic(auto)]

mod base64_text;
mod inspected;
mod joined;
mod laws;
mod line;
mod members;
mod named_piece;
mod names;
mod oversize;
mod pieces;
mod reading;
mod showing;
mod writing;

pub use laws::reads_back;
pub use named_piece::{NamedPiece, arguments, cookies};
pub use names::header_value;
pub use oversize::oversized;
pub use reading::read_request;
pub use showing::parts;
pub use writing::write_request;
