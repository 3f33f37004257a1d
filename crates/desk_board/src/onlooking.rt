//! A publisher looks on at a desk.

use crate::publisher::Publisher;
use crate::taking::snapshot;
use desk_core::{Desk, Onlooker};
use std::sync::Wait;

/// A snapshot of each desk that is looked at is published. It is seen unless that is refused. A
/// look may wait for viewers.
impl<R: Wait> Onlooker for Publisher<R> {
    ghost use Rattle.desk_board.specs.BoardHistory.{ShowsNext};

    ghost sees = { ShowsNext };

    fn look(&mut self, desk: &Desk<'_>) -> bool {
        let Ok(snapshot) = snapshot(self.alloc, desk) else {
            return false;
        };
        let Ok(_receipt) = self.publish(snapshot) else {
            return false;
        };
        true
    }
}
