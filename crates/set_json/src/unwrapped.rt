//! Elements of lists that are wrapped in an object, as the API's get calls answer them.

ghost use Rattle.serde_json.specs.View.{view};
ghost use Rattle.set_json.specs.Lists.{wrapped as wrapped_in};
ghost use Rattle.std.specs.Prelude.{◌≡◌, option_map};

use json_view::{is_object, present_member};
use serde_json::Value;

// The object that the element holds under that name, if it holds one.
pub(crate) fn wrapped<'a>(v: &'a Value, name: &str) -> Option<&'a Value>
    ensures { option_map (λ found. view found.now) result ≡ wrapped_in name.now (view v.now) }
{
    match present_member(v, name) {
        Some(found) => if is_object(found) { Some(found) } else { None },
        None => None,
    }
}
