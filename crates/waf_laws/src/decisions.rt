//! The order of decisions.

ghost use Rattle.std.specs.Prelude.{◌≡◌, ◌≢◌, ◌⊎◌, false, IsTrue};
ghost use Rattle.waf_model.specs.DecisionOrder.{decision_before};
ghost use Rattle.waf_model.specs.declared.action.Decision.{Decision as DecisionData};

use waf_model::Decision;

/// Whether the first decision stands before the other: Allow, Block by ascending code, Captcha, Challenge.
pub fn stands_before(one: Decision, other: Decision) -> bool
    ensures { result ≡ decision_before one other }
{
    one < other
}

/// Decisions stand in one order: none before itself, of two that differ one before the other, and what stands before a
/// decision stands before those behind it.
pub fn decisions_in_order()
    ensures itself { (d : DecisionData) → decision_before d d ≡ false }
    ensures one { (d e : DecisionData) → d ≢ e → IsTrue (decision_before d e) ⊎ IsTrue (decision_before e d) }
    ensures onward { (d e f : DecisionData) → IsTrue (decision_before d e) → IsTrue (decision_before e f)
        → IsTrue (decision_before d f) }
{}
