//! The bells by which workers are called: the first worker has one, and all others have another.

use crossbeam_channel::Sender;
use std::sync::Wait;

/// What a worker is called for.
#[derive(Clone, Copy)]
pub(crate) enum Call {
    /// A step that the first worker should take.
    Step,
    /// A view, or a step that anyone may take.
    Any,
}

/// The bells, with what is known of how busy workers are: so many steps and views are out, which
/// were sent and not answered yet.
#[derive(Drop)]
pub(crate) struct Bells {
    first: Sender<Call>,
    others: Sender<Call>,
    many_others: u32,
    steps_out: u32,
    views_out: u32,
    is_first_called: bool,
}

impl Bells {
    /// The bells of so many workers, at least one, none of which has a job.
    pub(crate) fn new(first: Sender<Call>, others: Sender<Call>, workers: u8) -> Bells {
        Bells {
            first,
            others,
            many_others: u32::from(workers).saturating_sub(1),
            steps_out: 0,
            views_out: 0,
            is_first_called: false,
        }
    }

    /// Calls for a step that was sent: the first worker alone where it has no job.
    pub(crate) fn call_for_step<R: Wait>(&mut self, rt: &R) {
        let call = if self.steps_out == 0 {
            Call::Step
        } else {
            Call::Any
        };
        // Where a bell takes no more calls, its workers look often enough for every job.
        let _ = self.first.try_send(rt, call);
        if self.steps_out > 0 || self.is_first_called {
            let _ = self.others.try_send(rt, call);
        }
        self.steps_out = self.steps_out.saturating_add(1);
    }

    /// Calls for a view that was sent: the others, and the first worker where each of them may have
    /// a job.
    pub(crate) fn call_for_view<R: Wait>(&mut self, rt: &R) {
        let _ = self.others.try_send(rt, Call::Any);
        if self.steps_out.saturating_add(self.views_out) >= self.many_others {
            let _ = self.first.try_send(rt, Call::Any);
            self.is_first_called = true;
        }
        self.views_out = self.views_out.saturating_add(1);
    }

    /// Notes that a step was answered.
    pub(crate) fn note_step(&mut self) {
        self.steps_out = self.steps_out.saturating_sub(1);
    }

    /// Notes that a view was answered.
    pub(crate) fn note_view(&mut self) {
        self.views_out = self.views_out.saturating_sub(1);
        if self.views_out == 0 {
            self.is_first_called = false;
        }
    }
}
