//! Texts and meters alone.

use std::test::Fail;
use waf_base::{Full, Meter, Text};

#[test]
fn a_text_has_the_bytes_it_was_made_of(rt: HostRuntime) -> Result<(), Fail> {
    assert_eq!(rt; Text::of(rt.alloc(), b"ab")?.bytes(), b"ab".as_slice());
    Ok(())
}

#[test]
fn a_meter_is_full_at_its_limit(rt: HostRuntime) {
    let mut meter = Meter::new(1);
    assert_eq!(rt; meter.make(), Ok(()));
    assert_eq!(rt; meter.make(), Err(Full));
    assert_eq!(rt; meter.made, 1);
}
