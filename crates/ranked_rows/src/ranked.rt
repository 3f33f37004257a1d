//! What stands by rank.
ghost use Rattle.std.specs.Prelude.{◌≡◌, ℕ};

/// A row, which has a rank.
pub trait Ranked {
    ghost rank: { Self → ℕ };

    fn rank(&self) -> u128
        ensures { result ≡ rank self.now };
}
