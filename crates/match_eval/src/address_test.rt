//! Whether an address match holds.

ghost use Rattle.std.specs.Prelude.{◌↔◌, IfOk, IsTrue, Some};
ghost use Rattle.waf_model.specs.ForwardedAddress.{AddressHolds};

use crate::forwarded_value::value_holds;
use crate::range_cover::RangeCover;
use request_parts::header_value;
use std::alloc::Global;
use waf_model::{Forwarded, Memory, Request};

/// Whether a match of the ranges holds of the request (API type `IPSetReferenceStatement`): of the client's address,
/// or, where a header forwards addresses, of those. It fails only for want of memory.
pub(crate) fn address_holds(
    alloc: Global,
    cover: &RangeCover<'_>,
    forwarded: &Option<Forwarded>,
    request: &Request,
) -> Result<bool, Memory>
    ensures { IfOk result (λ holds. IsTrue holds ↔ AddressHolds cover.now forwarded.now request.now) }
{
    match forwarded {
        Some(forwarded) => forwarded_holds(alloc, cover, forwarded, request),
        None => Ok(cover.has(&request.address)),
    }
}

/// Whether the header's addresses make the match hold; an absent header doesn't.
fn forwarded_holds(
    alloc: Global,
    cover: &RangeCover<'_>,
    forwarded: &Forwarded,
    request: &Request,
) -> Result<bool, Memory>
    ensures { IfOk result (λ holds. IsTrue holds ↔ AddressHolds cover.now (Some forwarded.now) request.now) }
{
    match header_value(request, forwarded.header.bytes()) {
        Some(value) => value_holds(alloc, cover, forwarded, value),
        None => Ok(false),
    }
}
