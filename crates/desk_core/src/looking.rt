//! Who looks on while a desk is settled.
ghost use Rattle.std.specs.Prelude.{◌≡◌, false, true};

use crate::desk::Desk;

/// Looks on at a desk. `sees` says what a look at a desk changes.
pub trait Onlooker {
    ghost use Rattle.dependency_book.specs.BookState.{BookState};

    ghost sees: { Self → BookState → Self → Type 0 };

    /// Whether the desk was seen. Where it wasn't, nothing is changed.
    fn look(&mut self, desk: &Desk<'_>) -> bool
        ensures seen { result ≡ true → sees self.old desk.now self.new }
        ensures unseen { result ≡ false → self.new ≡ self.old };
}

/// Nobody looks on.
#[derive(Drop)]
pub struct Unwatched;

impl Onlooker for Unwatched {
    ghost use Rattle.std.specs.Prelude.{⊤};

    ghost sees = { λ _ _ _. ⊤ };

    fn look(&mut self, _desk: &Desk<'_>) -> bool {
        true
    }
}
