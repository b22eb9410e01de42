//! The statements that are written in a bundle.

ghost use Rattle.std.specs.Prelude.{◌≡◌, ◌↔◌, Contains, Some};
ghost use Rattle.waf_model.specs.Places.{places, statement_at};
ghost use Rattle.waf_model.specs.WholeBundle.{IsWhole};
ghost use Rattle.waf_model.specs.Written.{Written, path_at, written_at, written_statements};
ghost use Rattle.waf_model.specs.declared.bundle.Bundle.{Bundle};
ghost use Rattle.waf_model.specs.declared.place.Place.{Place};
ghost use Rattle.waf_model.specs.declared.statement.Statement.{Statement};

/// The statements of a whole bundle, with their paths, are just those that stand at the places of its steps and what
/// stands in them.
pub fn written_at_places()
    ensures { (bundle : Bundle) (written : Written) → IsWhole bundle
        → Contains (written_statements bundle) written
        ↔ ((place : Place) × (statement : Statement) × Contains (places bundle) place
        × (statement_at bundle place ≡ Some statement)
        × Contains (written_at (path_at bundle place) statement) written) }
{}
