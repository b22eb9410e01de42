//! Which steps of an evaluation fire.

ghost use Rattle.std.specs.Prelude.{◌↔◌, ℕ, List, IsTrue};
ghost use Rattle.waf_model.specs.Firing.{Ended, Fires, Seen};
ghost use Rattle.waf_model.specs.LabelMatch.{IsAmong};
ghost use Rattle.waf_model.specs.OutcomeTruth.{fires, has_ended, labels_behind};
ghost use Rattle.waf_model.specs.Steps.{Step};
ghost use Rattle.waf_model.specs.declared.answers.Answers.{Answers};
ghost use Rattle.waf_model.specs.declared.bundle.Bundle.{Bundle};
ghost use Rattle.waf_model.specs.declared.request.Request.{Request};

/// Behind any steps the truth values say exactly which step fires, which labels were seen, and for the rules of which
/// places the evaluation has ended.
pub fn firing_is_decided()
    ensures fires { (bundle : Bundle) (request : Request) (answers : Answers) (before : List Step) (step : Step)
        → IsTrue (fires bundle request answers before step) ↔ Fires bundle request answers before step }
    ensures seen { (bundle : Bundle) (request : Request) (answers : Answers) (before : List Step) (label : List ℕ)
        → IsAmong (labels_behind bundle request answers before) label ↔ Seen bundle request answers before label }
    ensures ended { (bundle : Bundle) (request : Request) (answers : Answers) (before : List Step) (place : ℕ)
        → IsTrue (has_ended bundle request answers before place) ↔ Ended bundle request answers before place }
{}
