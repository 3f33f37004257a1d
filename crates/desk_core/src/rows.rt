//! The rows of a desk's bookmarks, one after another.
ghost use Rattle.std.specs.Prelude.{◌≡◌};
ghost use Rattle.std.specs.List.{AllByRecursion};
ghost use Rattle.dependency_book.specs.ShownRows.{IsScratch, shown_rows};

use crate::desk::Desk;
use dependency_book::ShownRows;

impl Desk<'_> {
    /// The bookmarks of the present document by rising id, each with what `shown` answers of it:
    /// its text, or none while it is pending. The texts are lent, and it takes no memory.
    pub fn rows(&self) -> ShownRows<'_>
        ensures rows { result ≡ shown_rows self.now }
        ensures right { AllByRecursion (IsScratch self.now.plan) result }
    {
        self.book.rows()
    }
}
