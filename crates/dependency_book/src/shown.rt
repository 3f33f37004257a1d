//! What a book shows.

/// What is shown of a bookmark.
#[derive(Clone, Copy, Debug, PartialEq, Eq)]
pub enum Shown<'a> {
    /// The text that starting over gives for the present document.
    Current(&'a [u8]),
    /// No text is known.
    Pending,
    /// The document has no bookmark of that id.
    NoSuch,
}
