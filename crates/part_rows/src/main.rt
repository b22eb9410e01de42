//! Runs rows of the parts of an evaluation and of its readers through their calls: patterns, transformations, addresses,
//! ranges, covers, labels, vocabularies, effective actions, and decision graphs; JSON views, keys, statements, web ACLs and
//! rule groups, bundles, requests and answers. docs/ROWS.md says what each kind is given and wants.
#![tactic(auto)]

mod acl_line;
mod acl_rows;
mod actions;
mod addresses;
mod answer_rows;
mod answers;
mod bundle_line;
mod bundle_rows;
mod covers;
mod fault_line;
mod field_line;
mod formula;
mod given;
mod graphs;
mod key_rows;
mod label_rows;
mod line;
mod number_texts;
mod owner;
mod pattern_sets;
mod patterns;
mod references;
mod request_rows;
mod row_fault;
mod rule_line;
mod shown_rows;
mod statement_line;
mod statement_rows;
mod surroundings;
mod told;
mod transformations;
mod view_rows;
mod vocabularies;

use acl_rows::AclRows;
use actions::EffectiveActions;
use addresses::{Ranges, ReadAddresses, WrittenAddresses};
use answer_rows::AnswerRows;
use bundle_rows::BundleRows;
use covers::Covers;
use graphs::{Graphs, LimitedGraphs};
use key_rows::KeyRows;
use label_rows::LabelRows;
use patterns::{Hits, Searches};
use references::References;
use request_rows::RequestRows;
use shown_rows::ShownRows;
use statement_rows::StatementRows;
use std::io;
use text_rows::print_report;
use transformations::Transformations;
use view_rows::ViewRows;
use vocabularies::Vocabularies;

/// The files of rows of statements, a subject each.
const STATEMENT_FILES: [&str; 5] = [
    "statements.rows",
    "statement_faults.rows",
    "statement_parts.rows",
    "statement_limits.rows",
    "statement_sets.rows",
];

/// The files of rows of web ACLs and rule groups.
const ACL_FILES: [&str; 3] = ["web_acls.rows", "web_acl_rules.rows", "rule_groups.rows"];

/// Prints the reports on the rows of what a statement tests.
fn print_tests(rt: &HostRuntime) -> io::Result<()> {
    print_report(rt, "patterns.rows", &Hits)?;
    print_report(rt, "searches.rows", &Searches)?;
    print_report(rt, "transformations.rows", &Transformations)?;
    print_report(rt, "addresses.rows", &ReadAddresses)?;
    print_report(rt, "written_addresses.rows", &WrittenAddresses)?;
    print_report(rt, "ranges.rows", &Ranges)?;
    print_report(rt, "covers.rows", &Covers)
}

/// Prints the reports on the rows of what decides beside a statement, and of decision graphs.
fn print_decisions(rt: &HostRuntime) -> io::Result<()> {
    print_report(rt, "labels.rows", &LabelRows)?;
    print_report(rt, "vocabulary.rows", &Vocabularies)?;
    print_report(rt, "actions.rows", &EffectiveActions)?;
    print_report(rt, "references.rows", &References)?;
    print_report(rt, "graphs.rows", &Graphs)?;
    print_report(rt, "graph_limits.rows", &LimitedGraphs)
}

/// Prints the reports on the rows of what reads a bundle.
fn print_bundles(rt: &HostRuntime) -> io::Result<()> {
    print_report(rt, "views.rows", &ViewRows)?;
    print_report(rt, "keys.rows", &KeyRows)?;
    for file in STATEMENT_FILES {
        print_report(rt, file, &StatementRows)?;
    }
    for file in ACL_FILES {
        print_report(rt, file, &AclRows)?;
    }
    print_report(rt, "bundles.rows", &BundleRows)
}

fn main(rt: HostRuntime) -> io::Result<()> {
    print_tests(&rt)?;
    print_decisions(&rt)?;
    print_bundles(&rt)?;
    print_report(&rt, "requests.rows", &RequestRows)?;
    print_report(&rt, "shown.rows", &ShownRows)?;
    print_report(&rt, "answers.rows", &AnswerRows)
}
