//! How a history goes on, and how a copy takes in what comes next.
ghost use Rattle.std.specs.Prelude.{◌≡◌, IfOk, IfSome};
ghost use Rattle.std.specs.Arc.{arc_value};
ghost use Rattle.desk_board.specs.BoardHistory.{EndsWith, and_then};
ghost use Rattle.desk_board.specs.Log.{head_of};

use crate::history::Counter;
use crate::latest::Latest;
use crate::receipt::Receipt;
use crate::snapshots::Snapshot;
use left_right::Absorb;
use std::alloc::{AllocError, Global};
use std::sync::Arc;

impl Latest {
    /// The same, by one more owner of the snapshot.
    pub(crate) fn again(&self) -> Result<Latest, AllocError>
        ensures { IfOk result (λ latest. latest ≡ self.now) }
    {
        Ok(Latest {
            snapshot: Arc::try_clone(&self.snapshot)?,
            receipt: self.receipt.again(),
        })
    }

    /// One more snapshot behind the history that ends with these. None where that can't be counted
    /// any more.
    pub(crate) fn after(
        receipt: &Receipt,
        counter: &Counter,
        snapshot: Arc<Snapshot, Global>,
    ) -> Option<Latest>
        requires { counter.now ≡ head_of receipt.now.board }
        ensures { IfSome result (λ latest. latest ≡ and_then receipt.now (arc_value snapshot)) }
    {
        let receipt = receipt.and(counter, &snapshot)?;
        Some(Latest { snapshot, receipt })
    }

    /// The snapshot.
    pub(crate) fn snapshot(&self) -> &Snapshot
        ensures { EndsWith self.now result.now }
    {
        &self.snapshot
    }

    /// The receipt for it.
    pub(crate) fn receipt(&self) -> &Receipt
        ensures { result.now ≡ self.now }
    {
        &self.receipt
    }
}

/// What is published next takes the place of what was there.
impl Absorb<Latest> for Latest {
    type State = Latest;

    ghost state = { λ latest. latest };

    ghost applied = { λ _ next. next };

    fn absorb_first(&mut self, operation: &Latest, _other: &Latest) -> Result<(), AllocError> {
        *self = operation.again()?;
        Ok(())
    }

    fn absorb_second(&mut self, operation: Latest, _other: &Latest) -> Result<(), Latest> {
        *self = operation;
        Ok(())
    }
}
