//! Branches of history.
ghost use Rattle.std.specs.Prelude.{◌≡◌};
ghost use Rattle.schedule.specs.Branches.{has_branch, fork_of, parent_of, has_children};
ghost use Rattle.schedule.specs.Branches.{farthest_fork, element_at};
ghost use Rattle.schedule.specs.Evolution.{is_felt};
ghost use Rattle.schedule.specs.Ids.{branch_id, has_id};
ghost use Rattle.schedule.specs.Sound.{IsForked};
ghost use Rattle.std.specs.List.{AllByRecursion};

/// A line of history of its own. It leaves its parent at a generation, with the parent's pattern
/// after that generation's interventions, and has interventions and bookmarks of its own.
#[derive(Clone, Copy, Debug, PartialEq, Eq)]
pub struct Branch {
    pub id: u64,
    pub parent: u64,
    /// The generation at which it leaves its parent.
    pub fork: u64,
}

// Whether the list has the branch of this id.
fn is_listed(branches: &[Branch], id: u64) -> bool
    ensures { result ≡ has_id branch_id branches.now id }
{
    branches.iter().any(|branch| branch.id == id)
}

// Whether the branch is there: 0, or one of the list.
pub(crate) fn has_branch(branches: &[Branch], id: u64) -> bool
    ensures { result ≡ has_branch branches.now id }
{
    id == 0 || is_listed(branches, id)
}

// The branch of this id, if it is listed.
pub(crate) fn branch_at(branches: &[Branch], id: u64) -> Option<Branch>
    ensures { result ≡ element_at branch_id branches.now id }
{
    branches.iter().copied().find(|branch| branch.id == id)
}

// The generation at which the branch of this id leaves its parent; 0 where it isn't listed.
pub(crate) fn fork_of(branches: &[Branch], id: u64) -> u64
    ensures { result ≡ fork_of branches.now id }
{
    match branch_at(branches, id) {
        Some(branch) => branch.fork,
        None => 0,
    }
}

// The parent of the branch of this id; 0 where it isn't listed.
pub(crate) fn parent_of(branches: &[Branch], id: u64) -> u64
    ensures { result ≡ parent_of branches.now id }
{
    match branch_at(branches, id) {
        Some(branch) => branch.parent,
        None => 0,
    }
}

// Whether a branch leaves the branch of this id.
pub(crate) fn has_children(branches: &[Branch], id: u64) -> bool
    ensures { result ≡ has_children branches.now id }
{
    branches.iter().any(|branch| branch.parent == id)
}

// The greatest generation at which a branch leaves the branch of this id, and `least` at least.
pub(crate) fn farthest_fork(branches: &[Branch], id: u64, least: u64) -> u64
    ensures { result ≡ farthest_fork branches.now id least }
{
    branches.iter().fold(least, |far, branch| {
        if branch.parent == id {
            far.max(branch.fork)
        } else {
            far
        }
    })
}

// Whether what arrives at a generation of a branch comes of what is laid in the branch `changed` at
// the generation `from` or later.
pub(crate) fn is_felt(
    branches: &[Branch],
    branch: u64,
    generation: u64,
    changed: u64,
    from: u64,
) -> bool
    requires { AllByRecursion (IsForked branches.now) branches.now }
    ensures { result ≡ is_felt branches.now branch branch generation changed from }
{
    let mut at = branch;
    let mut until = generation;
    while at != changed && at != 0 {
        until = fork_of(branches, at) + 1;
        at = parent_of(branches, at);
    }
    at == changed && from < until
}
