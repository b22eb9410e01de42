//! A recorded request.

use crate::address::Address;
use waf_base::{Items, Text};

/// An HTTP request, as it was recorded.
#[derive(Debug, Drop)]
pub struct Request {
    pub method: Text,
    pub path: Text,
    /// The query, without `?`; empty where there is none.
    pub query: Text,
    pub headers: Items<Header>,
    /// The body; empty where there is none.
    pub body: Text,
    /// The client's address.
    pub address: Address,
}

/// A header's name and value.
#[derive(Debug, Drop)]
pub struct Header {
    pub name: Text,
    pub value: Text,
}
