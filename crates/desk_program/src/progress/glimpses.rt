//! Who publishes for the thread that looks on.

use super::screen::Screen;
use desk_board::Publisher;
use desk_core::{Desk, Onlooker};
use std::sync::Wait;
use std::time::Clock;

/// Publishes the desk of a settling as that begins and then twice a second at most, since a snapshot
/// copies the document. It publishes nothing else.
pub struct Glimpses<'r, 's, R: Wait + Clock> {
    rt: &'r R,
    publisher: Publisher<&'r R>,
    screen: &'s Screen,
}

impl<'r, 's, R: Wait + Clock> Glimpses<'r, 's, R> {
    /// Those of the settlings that the screen is told of.
    pub fn new(rt: &'r R, publisher: Publisher<&'r R>, screen: &'s Screen) -> Glimpses<'r, 's, R> {
        Glimpses {
            rt,
            publisher,
            screen,
        }
    }

    /// Ends the board. It may wait for its viewer.
    pub fn end(self) {
        let Glimpses {
            rt: _rt,
            publisher,
            screen: _screen,
        } = self;
        publisher.end();
    }
}

impl<R: Wait + Clock> Onlooker for Glimpses<'_, '_, R> {
    ghost use Rattle.std.specs.Prelude.{⊤};

    ghost sees = { λ _ _ _. ⊤ };

    fn look(&mut self, desk: &Desk<'_>) -> bool {
        if self.screen.is_due(self.rt) {
            // What is refused isn't shown.
            let _is_seen = self.publisher.look(desk);
        }
        true
    }
}
