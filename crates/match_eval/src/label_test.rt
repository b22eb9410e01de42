//! Whether a label match holds of the labels that were added before.

ghost use Rattle.std.specs.Prelude.{◌↔◌, ℕ, List, IsTrue};
ghost use Rattle.waf_model.specs.LabelMatch.{IsAmong, label_holds};

use label_scope::Labels;
use waf_model::{LabelScope, Text};

/// Whether a label match of that scope and key, in a web ACL or group of that namespace, holds of one of the labels.
pub(crate) fn label_match_holds(
    scope: LabelScope,
    key: &Text,
    seen: &Labels,
    namespace: &Text,
) -> bool
    ensures { IsTrue result ↔ ((label : List ℕ) × IsAmong seen.now label × IsTrue (label_holds scope key.now namespace.now label)) }
{
    seen.any(scope, key, namespace)
}
