//! How often memory was wanting.
ghost use Rattle.std.specs.Prelude.{◌≡◌, ◌+◌};

use boxcar::tag::{Names, Tag};
use std::marker::Model;

/// How often memory was wanting for something. It takes no bytes and so has no last number, and
/// clauses alone see it.
#[derive(Drop)]
pub(crate) struct Refusals {
    tag: Tag,
}

struct OneMore;

impl Names<Tag> for OneMore {
    ghost use Rattle.std.specs.Prelude.{◌∷◌};

    ghost numbers = { λ tag. 0 ∷ tag.numbers };
}

impl Model for Refusals {
    ghost use Rattle.std.specs.Prelude.{ℕ, length};

    ghost Value = { ℕ };

    ghost view = { λ refusals. length refusals.tag.numbers };
}

impl Refusals {
    pub(crate) fn none() -> Refusals
        ensures { result ≡ 0 }
    {
        Refusals { tag: Tag::empty() }
    }

    pub(crate) fn note(&mut self)
        ensures { self.new ≡ self.old + 1 }
    {
        self.tag = Tag::of::<Tag, OneMore>(&self.tag);
    }
}
