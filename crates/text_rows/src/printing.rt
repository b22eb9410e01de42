//! The report on a file, printed.

use crate::reporting::{Kind, report};
use std::io;
use std::io::Write;
use waf_base::{Files, RealFiles};

/// Reads a file of the folder that the program runs in, and prints the report on its rows; `FILE unread` where it can't
/// be read, and `FILE memory` where memory was wanting. It fails only where the output does.
pub fn print_report<K: Kind>(rt: &HostRuntime, file: &str, kind: &K) -> io::Result<()> {
    let mut files = RealFiles::new(rt.clone()?);
    let Ok(bytes) = files.read(rt.alloc(), file) else {
        return println!(rt; "{file} unread");
    };
    match report(rt.alloc(), file, &bytes, kind) {
        Ok(text) => io::writer(rt).write_all(text.bytes()),
        Err(_) => println!(rt; "{file} memory"),
    }
}
