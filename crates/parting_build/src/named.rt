//! The paths that rules name, and one that none names.

ghost use Rattle.std.specs.Prelude.{◌≡◌, ◌≤◌, IsTrue, false, length, IfOk};
ghost use Rattle.waf_model.specs.Within.{is_path};
ghost use Rattle.parting_build.specs.Named.{names, search_of as search_text, search_of_rule as rule_text};

use std::alloc::Global;
use waf_model::{Memory, Statement, Text, Top, TopRule};

/// How many paths are looked at for one that no rule names: one more than two web ACLs have rules.
const PATHS: u32 = 2001;

fn search_of(statement: &Statement) -> &[u8]
    ensures { result.now ≡ search_text statement.now }
{
    match statement {
        Statement::ByteMatch { search, .. } => search.bytes(),
        _ => b"",
    }
}

/// The search string of the rule, or the empty text where it has none.
pub(crate) fn search_of_rule(body: &Top) -> &[u8]
    ensures { result.now ≡ rule_text body.now }
{
    match body {
        Top::Plain(rule) => search_of(&rule.statement),
        _ => b"",
    }
}

/// Whether some rule has the path as its search string.
fn is_named(rules: &[TopRule], path: &[u8]) -> bool
    ensures { result ≡ names rules.now path.now }
{
    rules.iter().any(|rule| search_of_rule(&rule.body) == path)
}

/// A path within the limits that no rule of either list names: `/` and the least number of letters `a`.
pub(crate) fn unnamed_path(alloc: Global, old: &[TopRule], new: &[TopRule]) -> Result<Text, Memory>
    requires old_count { length old.now ≤ 1000 }
    requires new_count { length new.now ≤ 1000 }
    ensures path { IfOk result (λ path. IsTrue (is_path path)) }
    ensures old { IfOk result (λ path. names old.now path ≡ false) }
    ensures new { IfOk result (λ path. names new.now path ≡ false) }
{
    let mut path = Text::of(alloc, b"/")?;
    for _ in 0..PATHS {
        if !is_named(old, path.bytes()) && !is_named(new, path.bytes()) {
            return Ok(path);
        }
        path.push(b"a")?;
    }
    unreachable!()
}
