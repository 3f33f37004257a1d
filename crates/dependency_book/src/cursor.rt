//! Where the search for what is needed next goes on.
ghost use Rattle.std.specs.Prelude.{◌≡◌, if◌then◌else◌};
ghost use Rattle.dependency_book.specs.Cursor.{start};

/// Places among rows that needn't be looked at again: no text before the place `views` can be
/// viewed, and no step can be made to a mark before the place `steps`.
#[derive(Clone, Copy)]
pub(crate) struct Cursor {
    pub(crate) views: usize,
    pub(crate) steps: usize,
}

impl Cursor {
    /// Before all rows.
    pub(crate) fn start() -> Cursor
        ensures { result ≡ start }
    {
        Cursor { views: 0, steps: 0 }
    }

    /// The same where it stays, else before all rows.
    pub(crate) fn if_stays(self, stays: bool) -> Cursor
        ensures { result ≡ (if stays then self else start) }
    {
        if stays { self } else { Cursor::start() }
    }
}
