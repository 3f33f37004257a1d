//! What a rule is to everything that applies it.
ghost use Rattle.std.specs.Prelude.{◌≡◌, ◌<◌, ◌≤◌, ℕ, List, All};
ghost use Rattle.worlds.specs.Step.{nine_zeros, AreNineBelow};

/// The states of a cell and its eight neighbours, in the order C, N, NE, E, SE, S, SW, W, NW.
/// N lies at y - 1 and E at x + 1.
#[derive(Clone, Copy, Debug, PartialEq, Eq)]
pub struct Around(pub [u8; 9]);

/// A rule of a cellular automaton: the next state of a cell by the states at and around it.
///
/// `meaning` is that function, over the nine states in the order of `Around`, and `state_count`
/// is how many states there are.
pub trait Next {
    ghost state_count: { Self → ℕ };

    ghost meaning: { Self → List ℕ → ℕ };

    /// How many states the rule has, from 2 to 256.
    fn states(&self) -> u16
        ensures count { result ≡ state_count self.now }
        ensures at_least { 2 ≤ result }
        ensures at_most { result ≤ 256 };

    /// The next state of the cell in the middle. All nine states are below `states`.
    fn next(&self, around: &Around) -> u8
        requires { All (λ s. s < state_count self.now) around.now.0 }
        ensures { result ≡ meaning self.now around.now.0 };

    ghost quiet: { (rule : Self) → meaning rule nine_zeros ≡ 0 };

    ghost below: { (rule : Self) (states : List ℕ) → AreNineBelow (state_count rule) states → meaning rule states < state_count rule };
}
