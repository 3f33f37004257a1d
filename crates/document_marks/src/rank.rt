//! The order of marks.
ghost use Rattle.std.specs.Prelude.{◌≡◌};
ghost use Rattle.document_marks.specs.AllMarks.{mark_rank};

use desk_events::Mark;

/// The rank of a mark: marks rise by branch, and in a branch by generation.
pub fn rank_of(mark: Mark) -> u128
    ensures { result ≡ mark_rank mark }
{
    u128::from(mark.branch) * (1 << 64) + u128::from(mark.generation)
}
