//! The texts of addresses and of ranges of them: IPv4 and IPv6.
#![tactic(auto)]

mod address;
mod cutting;
mod ipv4;
mod ipv6;
mod range;
mod writing;

pub use address::read_address;
pub use range::read_cidr;
pub use writing::write_address;
