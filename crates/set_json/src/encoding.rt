//! How the search strings of a bundle are written.

ghost use Rattle.json_view.specs.Words.{meaning};
ghost use Rattle.serde_json.specs.View.{view};
ghost use Rattle.set_json.specs.Bundles.{encoding_at, encoding_of as encoding_in, encoding_words};
ghost use Rattle.std.specs.Prelude.{◌≡◌, option_map};
ghost use Rattle.waf_model.specs.Gives.{Gives};
ghost use Rattle.waf_model.specs.declared.read_fault.ReadFault.TheVariants as read_faults;

use json_view::{copy_of, member_path, optional, text};
use serde_json::Value;
use statement_json::Encoding;
use std::alloc::Global;
use waf_model::{ReadFault, Text};

/// How the search strings of the bundle are written; base64 where it doesn't say.
#[tactic(auto, unfolding(crate::specs::Bundles::encoding_at))]
pub(crate) fn encoding(alloc: Global, v: &Value, path: &Text) -> Result<Encoding, ReadFault>
    ensures { Gives read_faults.Memory (λ encoding. encoding) result (encoding_at (view v.now) path.now) }
{
    let found = optional(alloc, v, "SearchStringEncoding", path)?;
    let at = member_path(alloc, path, "SearchStringEncoding")?;
    encoding_of(alloc, found, &at)
}

fn encoding_of(alloc: Global, found: Option<&Value>, path: &Text) -> Result<Encoding, ReadFault>
    ensures { Gives read_faults.Memory (λ encoding. encoding) result (encoding_in (option_map (λ v. view v.now) found.entry) path.now) }
{
    let Some(found) = found else {
        return Ok(Encoding::Base64);
    };
    let word = text(alloc, found, path)?;
    match encoding_named(word) {
        Some(encoding) => Ok(encoding),
        None => Err(ReadFault::Name(copy_of(alloc, path)?)),
    }
}

// What the word for an encoding means.
fn encoding_named(word: &str) -> Option<Encoding>
    ensures { result ≡ meaning encoding_words word.now }
{
    if word == "BASE64" {
        Some(Encoding::Base64)
    } else if word == "TEXT" {
        Some(Encoding::Plain)
    } else {
        None
    }
}
