//! Response codes of Block actions.

ghost use Rattle.serde_json.specs.View.{view};
ghost use Rattle.statement_json.specs.Blocks.{block_code as block_code_in, custom_response as custom_response_in, response_code as response_code_in};
ghost use Rattle.std.specs.Prelude.{◌≡◌, option_map};
ghost use Rattle.waf_model.specs.Gives.{Gives};
ghost use Rattle.waf_model.specs.declared.read_fault.ReadFault.TheVariants as read_faults;

use json_view::{member_path, present_member, whole_member};
use serde_json::Value;
use std::alloc::Global;
use waf_model::{ReadFault, Text};

// The code of a Block without a custom response.
const FORBIDDEN: u32 = 403;

// The least and the greatest code of a custom response.
const LEAST_CODE: u64 = 200;

const GREATEST_CODE: u64 = 599;

/// The HTTP status code of the Block that the action at that path names: that of its custom response, or 403 where it has
/// none. Shape where the custom response is no object, or at its code where that is absent or no number, and Number at a
/// code that isn't whole or not from 200 to 599 (API types `BlockAction` and `CustomResponse`).
#[tactic(auto, unfolding(crate::specs::Blocks::block_code))]
pub fn block_code(alloc: Global, action: &Value, path: &Text) -> Result<u32, ReadFault>
    ensures { Gives read_faults.Memory (λ code. code) result (block_code_in (view action.now) path.now) }
{
    let custom = custom_response(action);
    let block = member_path(alloc, path, "Block")?;
    let at = member_path(alloc, &block, "CustomResponse")?;
    response_code(alloc, custom, &at)
}

// The custom response of the action's Block.
fn custom_response(action: &Value) -> Option<&Value>
    ensures { option_map (λ custom. view custom.now) result ≡ custom_response_in (view action.now) }
{
    let block = present_member(action, "Block")?;
    present_member(block, "CustomResponse")
}

// The code of that custom response.
fn response_code(alloc: Global, custom: Option<&Value>, path: &Text) -> Result<u32, ReadFault>
    ensures { Gives read_faults.Memory (λ code. code) result (response_code_in (option_map (λ v. view v.now) custom.entry) path.now) }
{
    let Some(custom) = custom else {
        return Ok(FORBIDDEN);
    };
    let code = whole_member(
        alloc,
        custom,
        "ResponseCode",
        path,
        LEAST_CODE,
        GREATEST_CODE,
    )?;
    Ok(code as u32)
}
