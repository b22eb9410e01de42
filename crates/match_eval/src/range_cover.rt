//! Ranges of addresses that are prepared for look-ups.

ghost use Rattle.std.specs.Prelude.{◌≡◌, ◌↔◌, IfOk, IsTrue};
ghost use Rattle.waf_model.specs.AddressRange.{IsInSome};

use ip_cover::IpCover;
use std::alloc::Global;
use std::marker::Model;
use waf_model::{Address, Cidr, Memory};

/// Ranges, and the cover in which their addresses are looked up by binary search. Contracts see it as the ranges.
#[derive(Drop)]
pub(crate) struct RangeCover<'a> {
    ranges: &'a [Cidr],
    cover: IpCover,
}

impl<'a> Model for RangeCover<'a> {
    ghost use Rattle.ip_cover.specs.Cover.{IsCovered};
    ghost use Rattle.std.specs.Prelude.{◌↔◌, List};
    ghost use Rattle.waf_model.specs.AddressRange.{IsInSome};
    ghost use Rattle.waf_model.specs.declared.address.Address.{Address};
    ghost use Rattle.waf_model.specs.declared.address.Cidr.{Cidr};

    ghost Value = { List Cidr };

    ghost view = { λ c. c.ranges.now };

    ghost invariant = { λ c. (address : Address) → IsCovered c.cover address ↔ IsInSome c.ranges.now address };
}

impl<'a> RangeCover<'a> {
    /// The cover of the ranges. It takes the time of sorting them, and fails only for want of memory.
    pub(crate) fn of(alloc: Global, ranges: &'a [Cidr]) -> Result<RangeCover<'a>, Memory>
        ensures { IfOk result (λ cover. cover ≡ ranges.now) }
    {
        let cover = IpCover::of(alloc, ranges)?;
        Ok(RangeCover { ranges, cover })
    }

    /// Whether the address is in one of the ranges.
    pub(crate) fn has(&self, address: &Address) -> bool
        ensures { IsTrue result ↔ IsInSome self.now address.now }
    {
        self.cover.holds(address)
    }
}
