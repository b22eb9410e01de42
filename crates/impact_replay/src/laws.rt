//! Laws of the impact.

ghost use Rattle.std.specs.Prelude.{◌≡◌, ℕ, List, []};
ghost use Rattle.impact_replay.specs.Replayed.{IsLogWithin, IsReplayed};
ghost use Rattle.impact_replay.specs.declared.impact.Impact.{Impact};
ghost use Rattle.waf_model.specs.Alike.{Alike, IsLawful, pair_limit};
ghost use Rattle.waf_model.specs.declared.answers.Answers.{Answers};
ghost use Rattle.waf_model.specs.declared.bundle.Bundle.{Bundle};

/// A log has at most one impact.
pub fn one_impact()
    ensures { (old new : Bundle) (log : List ℕ) (answers : Answers) (one other : Impact)
        → IsReplayed old new log answers one → IsReplayed old new log answers other → one ≡ other }
{}

/// Revisions that decide alike change nothing on a log whose requests are within the limits, under lawful answers.
pub fn alike_change_nothing()
    ensures { (old new : Bundle) (log : List ℕ) (answers : Answers) (impact : Impact) → Alike old new → IsLogWithin log (pair_limit old new)
        → IsLawful answers → IsReplayed old new log answers impact → impact.changed ≡ [] }
{}
