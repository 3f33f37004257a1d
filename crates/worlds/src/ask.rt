//! A rule that counts how often it is asked.
ghost use Rattle.std.specs.Prelude.{◌≡◌, ◌+◌, ◌<◌, ◌≤◌, ℕ, List, All};
ghost use Rattle.worlds.specs.Step.{nine_zeros, AreNineBelow};

use crate::next::Around;

/// A rule of a cellular automaton that is asked for one cell at a time, and counts it.
///
/// `meaning` and `state_count` are those of `Next`, and no question changes them. `asks` is how
/// often it was asked.
pub trait Ask {
    ghost state_count: { Self → ℕ };

    ghost meaning: { Self → List ℕ → ℕ };

    ghost asks: { Self → ℕ };

    /// How many states the rule has, from 2 to 256.
    fn states(&self) -> u16
        ensures count { result ≡ state_count self.now }
        ensures at_least { 2 ≤ result }
        ensures at_most { result ≤ 256 };

    /// The next state of the cell in the middle. All nine states are below `states`.
    fn ask(&mut self, around: &Around) -> u8
        requires { All (λ s. s < state_count self.old) around.now.0 }
        ensures state { result ≡ meaning self.old around.now.0 }
        ensures meaning { meaning self.new ≡ meaning self.old }
        ensures states { state_count self.new ≡ state_count self.old }
        ensures asks { asks self.new ≡ asks self.old + 1 };

    ghost quiet: { (rule : Self) → meaning rule nine_zeros ≡ 0 };

    ghost below: { (rule : Self) (states : List ℕ) → AreNineBelow (state_count rule) states → meaning rule states < state_count rule };
}
