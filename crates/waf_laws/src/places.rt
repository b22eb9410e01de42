//! The places of the rules that are tried.

ghost use Rattle.std.specs.Prelude.{◌≡◌, map};
ghost use Rattle.waf_model.specs.Places.{namespace_at, places, statement_at, statement_of_tried};
ghost use Rattle.waf_model.specs.Steps.{steps};
ghost use Rattle.waf_model.specs.declared.bundle.Bundle.{Bundle};

/// At the places of a bundle stand, in order, the statements and the namespaces of its steps.
pub fn places_follow_steps()
    ensures statements { (bundle : Bundle) → map (statement_at bundle) (places bundle)
        ≡ map (λ step. statement_of_tried step.tried) (steps bundle) }
    ensures namespaces { (bundle : Bundle) → map (namespace_at bundle) (places bundle)
        ≡ map (λ step. step.namespace) (steps bundle) }
{}
