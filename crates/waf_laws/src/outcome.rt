//! The outcome of a web ACL.

ghost use Rattle.std.specs.Prelude.{◌≡◌, ◌↔◌};
ghost use Rattle.waf_model.specs.Alike.{Decides};
ghost use Rattle.waf_model.specs.Outcome.{IsOutcome};
ghost use Rattle.waf_model.specs.OutcomeTruth.{decision_of, deciding, outcome_of};
ghost use Rattle.waf_model.specs.declared.action.Decision.{Decision};
ghost use Rattle.waf_model.specs.declared.answers.Answers.{Answers};
ghost use Rattle.waf_model.specs.declared.bundle.Bundle.{Bundle};
ghost use Rattle.waf_model.specs.declared.outcome.Outcome.{Outcome};
ghost use Rattle.waf_model.specs.declared.request.Request.{Request};

/// Every web ACL has just one outcome on every request under all answers, the one that is computed step by step: the
/// decision and the ender of the first step that decides, or of the default action, and the labels added by then.
pub fn outcome_is_computed()
    ensures { (bundle : Bundle) (request : Request) (answers : Answers) (outcome : Outcome)
        → IsOutcome bundle request answers outcome ↔ (outcome ≡ outcome_of bundle request answers) }
{}

/// Every web ACL decides every request under all answers in just one way: by the first step that decides, or by the
/// default action.
pub fn one_decision()
    ensures { (bundle : Bundle) (request : Request) (answers : Answers) (decision : Decision)
        → Decides bundle request answers decision
        ↔ (decision ≡ decision_of bundle (deciding bundle request answers)) }
{}
