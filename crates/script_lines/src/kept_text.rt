//! The bytes of a text, as far as there is memory for them.
ghost use Rattle.std.specs.Prelude.{◌≡◌, ◌∷◌, [], Some, None, take, MatchOption};
ghost use Rattle.script_lines.specs.KeptText.{GrowsText, len_of};
ghost use Rattle.std.specs.Option.{option_map};

use std::alloc::Global;
use std::marker::Model;

/// The bytes of a text, or nothing where memory ran out: what was kept by then is
/// given up at once.
#[derive(Debug, Drop)]
pub struct KeptText {
    bytes: Option<Vec<u8>>,
}

impl Model for KeptText {
    ghost use Rattle.std.specs.Prelude.{List, ℕ, Option};
    ghost use Rattle.std.specs.Option.{option_map};

    ghost Value = { Option (List ℕ) };

    ghost view = { λ t. option_map (λ v. v.items) t.bytes };
}

impl KeptText {
    /// No byte yet.
    pub(crate) fn new(alloc: Global) -> KeptText
        ensures { result ≡ Some [] }
    {
        KeptText {
            bytes: Some(Vec::new(alloc)),
        }
    }

    /// A text of which nothing is kept.
    pub(crate) fn unkept() -> KeptText
        ensures { result ≡ None }
    {
        KeptText { bytes: None }
    }

    /// The bytes, unless memory ran out.
    pub fn bytes(&self) -> Option<&[u8]>
        ensures { MatchOption result (self.now ≡ None) (λ bytes. self.now ≡ Some bytes.now) }
    {
        self.bytes.as_deref()
    }

    /// One more byte.
    pub(crate) fn push(&mut self, byte: u8)
        ensures { GrowsText self.old self.new (byte ∷ []) }
    {
        if let Some(bytes) = &mut self.bytes
            && bytes.push(byte).is_err()
        {
            self.bytes = None;
        }
    }

    /// How many bytes are kept.
    pub(crate) fn len(&self) -> usize
        ensures { result ≡ len_of self.now }
    {
        self.bytes.as_ref().map_or(0, |bytes| bytes.len())
    }

    /// Cuts the bytes after the first `len` off.
    pub(crate) fn truncate(&mut self, len: usize)
        ensures { self.new ≡ option_map (take len) self.old }
    {
        if let Some(bytes) = &mut self.bytes {
            bytes.truncate(len);
        }
    }
}
