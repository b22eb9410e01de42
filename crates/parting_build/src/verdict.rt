//! What a review answers.

ghost use Rattle.std.specs.Prelude.{◌≡◌};
ghost use Rattle.parting_build.specs.declared.verdict.ReviewStop.TheVariants as stops;

use waf_model::{Answers, Decision, Memory, Request, Text};

/// The answer of a review.
#[derive(Debug, Drop)]
pub enum Review {
    /// The two decide alike on every request within the limits.
    Equal,
    /// This request and these answers part them.
    Different(Parting),
    /// So many nodes were made, which is the limit, and a further one was needed.
    Undecided { made: u32 },
}

/// A request and answers under which two revisions decide differently, and the two decisions.
#[derive(Debug, Drop)]
pub struct Parting {
    pub old: Decision,
    pub new: Decision,
    pub request: Request,
    pub answers: Answers,
}

/// Which revision is meant.
#[derive(Clone, Copy, Debug, PartialEq, Eq)]
pub enum Side {
    Old,
    New,
}

/// Why a revision is not reviewed.
#[derive(Clone, Copy, Debug, PartialEq, Eq)]
pub enum Reason {
    N1,
    N2,
    N3,
    N4,
}

/// Why a review gave no answer.
#[derive(Debug, Drop)]
pub enum ReviewStop {
    /// The statement at the path is of a kind that is not reviewed.
    NotReviewable {
        side: Side,
        path: Text,
        reason: Reason,
    },
    /// Memory was wanting.
    Memory,
}

impl From<Memory> for ReviewStop {
    ghost from_gives = { λ _ stop. stop ≡ stops.Memory };

    fn from(_memory: Memory) -> ReviewStop {
        ReviewStop::Memory
    }
}
