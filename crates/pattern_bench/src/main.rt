//! Searches texts of letters `a` for a pattern of nearly 2,000 places, for bench/pattern_search.sh to time.
//!
//! Each line of the input is the length of a text in bytes; the output says whether the pattern is found in it. It never
//! is, so that the whole text is searched.
#![tactic(auto)]

use pattern_match::hits;
use pattern_read::read_pattern;
use std::alloc::Global;
use std::io;
use waf_base::Memory;

const PATTERN: &[u8] = b"(a{0,99}){20}b";

/// What is said of a text of so many letters.
fn outcome(alloc: Global, length: usize) -> Result<&'static str, Memory> {
    let Some(pattern) = read_pattern(alloc, PATTERN)? else {
        return Ok("outside");
    };
    let Ok(text) = vec![in alloc; b'a'; length] else {
        return Err(Memory);
    };
    if hits(alloc, &pattern, text.as_slice())? {
        return Ok("found");
    }
    Ok("missed")
}

fn main(rt: HostRuntime) -> io::Result<()> {
    for line in rt.lines(rt.alloc()) {
        let said = match line?.parse::<usize>() {
            Ok(length) => outcome(rt.alloc(), length).unwrap_or("memory"),
            Err(_) => "no length",
        };
        println!(rt; "{said}")?;
    }
    Ok(())
}
