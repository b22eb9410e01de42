//! Statements whose truth is an answer.

ghost use Rattle.serde_json.specs.View.{view};
ghost use Rattle.key_text.specs.Keys.{with_search};
ghost use Rattle.statement_json.specs.Matches.{keyed_match, opaque as opaque_in};
ghost use Rattle.std.specs.Prelude.{◌≡◌, IfOk, None, string_bytes};
ghost use Rattle.waf_model.specs.Gives.{Gives};
ghost use Rattle.waf_model.specs.RequestText.{base64_text};
ghost use Rattle.waf_model.specs.declared.read_fault.ReadFault.TheVariants as read_faults;

use crate::encoding::Encoding;
use base64::engine::general_purpose::STANDARD;
use json_view::copy_of;
use key_text::{holds_float, search_holds_float, search_key, statement_key};
use serde_json::Value;
use std::alloc::{AllocError, Global};
use waf_model::{ReadFault, Statement, Text};

// A statement whose truth is an answer under its own compact JSON text, which must not hold a number that isn't whole.
pub(crate) fn opaque(
    alloc: Global,
    statement: &Value,
    cost: Option<u64>,
    arn: Option<Text>,
    path: &Text,
) -> Result<Statement, ReadFault>
    ensures { Gives read_faults.Memory (λ statement. statement) result (opaque_in (view statement.now) cost arn path.now) }
{
    if holds_float(statement) {
        return Err(ReadFault::Number(copy_of(alloc, path)?));
    }
    let key = statement_key(alloc, statement)?;
    Ok(Statement::Opaque { key, cost, arn })
}

// A byte match, whose value is `found`, whose truth is an answer.
pub(crate) fn opaque_match(
    alloc: Global,
    encoding: Encoding,
    search: &Text,
    found: &Value,
    statement: &Value,
    cost: Option<u64>,
    path: &Text,
) -> Result<Statement, ReadFault>
    ensures { Gives read_faults.Memory (λ statement. statement) result (opaque_in (keyed_match encoding search.now (view found.now) (view statement.now)) cost None path.now) }
{
    match encoding {
        Encoding::Base64 => opaque(alloc, statement, cost, None, path),
        Encoding::Plain => opaque_search(alloc, search, found, statement, cost, path),
    }
}

// The same where the search string stands in the bundle as it is: its key has it in base64.
fn opaque_search(
    alloc: Global,
    search: &Text,
    found: &Value,
    statement: &Value,
    cost: Option<u64>,
    path: &Text,
) -> Result<Statement, ReadFault>
    ensures { Gives read_faults.Memory (λ statement. statement) result (opaque_in (with_search (base64_text search.now) (view found.now) (view statement.now)) cost None path.now) }
{
    if search_holds_float(found, statement) {
        return Err(ReadFault::Number(copy_of(alloc, path)?));
    }
    let search = base64(alloc, search.bytes())?;
    let key = search_key(alloc, search.as_str(), found, statement)?;
    Ok(Statement::Opaque {
        key,
        cost,
        arn: None,
    })
}

// The bytes in base64. It fails only for want of memory.
#[tactic(auto, unfolding(waf_model::specs::RequestText::base64_text))]
fn base64(alloc: Global, bytes: &[u8]) -> Result<String, AllocError>
    ensures { IfOk result (λ text. string_bytes text ≡ base64_text bytes.now) }
{
    Ok(STANDARD.encode(alloc, bytes)?)
}
