//! Laws of what a run writes.

ghost use Rattle.std.specs.Prelude.{ℕ, List, Option};
ghost use Rattle.waf_base.specs.Counts.{Stayed};
ghost use Rattle.wafreview_run.specs.Answered.{IsWritten, Written};

/// Where the sink's count of faults didn't rise, the text was written whole, with the answer's status.
pub fn written_where_the_count_stayed()
    ensures { (before after : Option (List ℕ)) (faults_before faults_after code : ℕ) (text : List ℕ) (status : ℕ)
        → Written before after faults_before faults_after code text status → Stayed faults_before faults_after
        → IsWritten before after faults_before faults_after code text status }
{}
