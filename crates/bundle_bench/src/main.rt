//! Reads files by `serde_json` alone, for bench/bundles.sh to compare with the reading of whole bundles.
//!
//! Each line of the input names a file; the output says whether it holds a JSON text.
#![tactic(auto)]

use json_view::parse;
use std::alloc::Global;
use std::io;
use waf_base::{Files, RealFiles};

/// What is said of the bytes of a file.
fn outcome(alloc: Global, bytes: &[u8]) -> &'static str {
    match parse(alloc, bytes) {
        Ok(Some(_)) => "read",
        Ok(None) => "no JSON",
        Err(_) => "memory",
    }
}

fn main(rt: HostRuntime) -> io::Result<()> {
    let mut files = RealFiles::new(rt.clone()?);
    for line in rt.lines(rt.alloc()) {
        let name = line?;
        let said = match files.read(rt.alloc(), name.as_str()) {
            Ok(bytes) => outcome(rt.alloc(), &bytes),
            Err(_) => "unread",
        };
        println!(rt; "{said}")?;
    }
    Ok(())
}
