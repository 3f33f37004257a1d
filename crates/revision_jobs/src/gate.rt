//! What a worker passes round each job.

/// Passed by a worker when it begins a job and when it has ended it, each time with the number of
/// the job. A gate may hold the worker up.
pub trait Gate {
    fn begin(&mut self, number: u32);

    fn end(&mut self, number: u32);
}

/// The gate that does nothing.
#[derive(Clone, Copy, Debug, PartialEq, Eq)]
pub struct NoGate;

impl Gate for NoGate {
    fn begin(&mut self, _number: u32) {}

    fn end(&mut self, _number: u32) {}
}
