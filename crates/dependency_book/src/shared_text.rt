//! Texts of bookmarks.
ghost use Rattle.std.specs.Prelude.{◌≡◌, IfOk};
ghost use Rattle.std.specs.Arc.{arc_value};

use schedule::Listing;
use std::alloc::AllocError;
use std::marker::Model;
use std::sync::Arc;

/// The text of a bookmark, shared, which contracts see as its bytes.
pub struct SharedText {
    bytes: Arc<Listing<u8>>,
}

// Written out, as a derived one is proved again wherever a text is dropped.
impl Drop for SharedText {
    fn drop(self) {
        let SharedText { bytes: _ } = self;
    }
}

impl Model for SharedText {
    ghost use Rattle.std.specs.Prelude.{ℕ, List};

    ghost Value = { List ℕ };

    ghost use Rattle.std.specs.Arc.{arc_value};

    ghost view = { λ t. arc_value t.bytes };
}

impl SharedText {
    /// The text of these bytes.
    pub(crate) fn of(bytes: Arc<Listing<u8>>) -> SharedText
        ensures { result ≡ arc_value bytes }
    {
        SharedText { bytes }
    }

    /// The same text, by one more owner of its bytes.
    pub fn share(&self) -> Result<SharedText, AllocError>
        ensures { IfOk result (λ text. text ≡ self.now) }
    {
        Ok(SharedText {
            bytes: Arc::try_clone(&self.bytes)?,
        })
    }

    /// The bytes.
    pub fn as_slice(&self) -> &[u8]
        ensures { result.now ≡ self.now }
    {
        self.bytes.as_slice()
    }
}
