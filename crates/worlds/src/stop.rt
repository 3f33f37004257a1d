//! How a long computation learns that nobody wants its result any more.
ghost use Rattle.std.specs.Prelude.{◌≡◌, ℕ, ◌+◌, if◌then◌else◌};

/// Asked from time to time by a long computation, which gives up where it says yes.
///
/// `yes_count` is how often it said yes, so that a caller can tell whether a computation that
/// gave up was told to.
pub trait Stop {
    ghost yes_count: { Self → ℕ };

    /// Whether to give up. Each yes is counted.
    fn poll(&mut self) -> bool
        ensures { yes_count self.new ≡ yes_count self.old + (if result then 1 else 0) };
}

/// The stop that never says yes.
#[derive(Clone, Copy, Debug, PartialEq, Eq)]
pub struct NoStop;

impl Stop for NoStop {
    ghost yes_count = { λ _. 0 };

    fn poll(&mut self) -> bool {
        false
    }
}
