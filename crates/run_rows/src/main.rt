//! Runs the rows of the whole program, and prints which came to something else; docs/ROWS.md says how a row is written.
#![tactic(auto)]

mod case;
mod runs;
mod setting;

use runs::Runs;
use std::io;
use text_rows::print_report;

/// The files of rows, a subject each.
const FILES: [&str; 22] = [
    "words.rows",
    "files.rows",
    "faults.rows",
    "outputs.rows",
    "outcomes.rows",
    "statements.rows",
    "texts.rows",
    "sizes.rows",
    "addresses.rows",
    "labels.rows",
    "actions.rows",
    "groups.rows",
    "managed_groups.rows",
    "answers.rows",
    "codes.rows",
    "body_limits.rows",
    "keys.rows",
    "capacities.rows",
    "reviews.rows",
    "impact.rows",
    "turns.rows",
    "long_files.rows",
];

fn main(rt: HostRuntime) -> io::Result<()> {
    for file in FILES {
        print_report(&rt, file, &Runs)?;
    }
    Ok(())
}
