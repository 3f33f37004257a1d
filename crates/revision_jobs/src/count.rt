//! Numbers for clauses alone.
ghost use Rattle.std.specs.Prelude.{◌≡◌, ◌+◌};

use boxcar::tag::{Names, Tag};
use std::marker::Model;
use std::mem;

/// A number that takes no bytes and so has no last value. Contracts see the number.
#[derive(Drop)]
pub(crate) struct Count {
    tag: Tag,
}

struct OneMore;

impl Names<Tag> for OneMore {
    ghost use Rattle.std.specs.Prelude.{◌∷◌};

    ghost numbers = { λ tag. 0 ∷ tag.numbers };
}

struct Same;

impl Names<Tag> for Same {
    ghost numbers = { λ tag. tag.numbers };
}

struct Sum;

impl Names<(Tag, Tag)> for Sum {
    ghost use Rattle.std.specs.Prelude.{◌++◌};

    ghost numbers = { λ tags. tags.0.numbers ++ tags.1.numbers };
}

impl Model for Count {
    ghost use Rattle.std.specs.Prelude.{ℕ, length};

    ghost Value = { ℕ };

    ghost view = { λ count. length count.tag.numbers };
}

impl Count {
    pub(crate) fn zero() -> Count
        ensures { result ≡ 0 }
    {
        Count { tag: Tag::empty() }
    }

    pub(crate) fn raise(&mut self)
        ensures { self.new ≡ self.old + 1 }
    {
        self.tag = Tag::of::<Tag, OneMore>(&self.tag);
    }

    pub(crate) fn add(&mut self, more: Count)
        ensures { self.new ≡ self.old + more }
    {
        let before = mem::replace(&mut self.tag, Tag::empty());
        self.tag = Tag::of::<(Tag, Tag), Sum>(&(before, more.tag));
    }

    pub(crate) fn again(&self) -> Count
        ensures { result ≡ self.now }
    {
        Count {
            tag: Tag::of::<Tag, Same>(&self.tag),
        }
    }
}
