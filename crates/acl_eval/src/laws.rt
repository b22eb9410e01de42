//! Laws of the outcome.

ghost use Rattle.std.specs.Prelude.{◌≡◌};
ghost use Rattle.waf_model.specs.Outcome.{IsOutcome};
ghost use Rattle.waf_model.specs.declared.answers.Answers.{Answers};
ghost use Rattle.waf_model.specs.declared.bundle.Bundle.{Bundle};
ghost use Rattle.waf_model.specs.declared.outcome.Outcome.{Outcome};
ghost use Rattle.waf_model.specs.declared.request.Request.{Request};

/// A web ACL has at most one outcome on a request under answers.
pub fn one_outcome()
    ensures { (bundle : Bundle) (request : Request) (answers : Answers) (one other : Outcome)
        → IsOutcome bundle request answers one → IsOutcome bundle request answers other → one ≡ other }
{}
