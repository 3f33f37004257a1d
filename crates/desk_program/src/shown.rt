//! How a run shows its progress.

use crate::progress::{Glimpses, Screen};
use desk_server::Listener;
use std::sync::Wait;
use std::time::Clock;

/// What looks on at a run and publishes to a board, if it shows its progress.
pub(crate) type Board<'r, 's, T> = Option<Glimpses<'r, 's, T>>;

/// Ends the board, if there is one. It may wait for its viewer.
pub(crate) fn end<T: Wait + Clock>(board: Board<'_, '_, T>) {
    match board {
        Some(glimpses) => {
            glimpses.end();
        }
        None => {}
    }
}

/// Tells a screen of the settlings of a run.
#[derive(Drop)]
pub(crate) struct ScreenListener<'r, 's, T: Wait + Clock + Eprint> {
    pub(crate) rt: &'r T,
    pub(crate) screen: &'s Screen,
}

impl<T: Wait + Clock + Eprint> Listener for ScreenListener<'_, '_, T> {
    fn waits(&mut self) {
        self.screen.begin(self.rt);
    }

    fn is_done(&mut self) {
        self.screen.end(self.rt);
    }
}
