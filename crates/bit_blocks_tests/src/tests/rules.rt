//! Rules that are asked.
ghost use Rattle.std.specs.Prelude.{◌≡◌, ◌+◌, ◌<◌, All, length};

use boxcar::tag::{Names, Tag};
use worlds::{Around, Ask, Next};

// A number more in a list of numbers.
struct OneMore;

impl Names<Tag> for OneMore {
    ghost use Rattle.std.specs.Prelude.{◌∷◌};

    ghost numbers = { λ t. 0 ∷ t.numbers };
}

/// A rule and how often it was asked, as a number and as a list that only contracts see.
#[derive(Drop)]
pub struct Counting<'r, R: Next> {
    rule: &'r R,
    asked: Tag,
    pub count: u64,
}

impl<'r, R: Next> Counting<'r, R> {
    pub fn new(rule: &'r R) -> Counting<'r, R> {
        Counting {
            rule,
            asked: Tag::empty(),
            count: 0,
        }
    }
}

impl<'r, R: Next> Ask for Counting<'r, R> {
    ghost state_count = { λ c. R.state_count c.rule.now };

    ghost meaning = { λ c. R.meaning c.rule.now };

    ghost asks = { λ c. length c.asked.numbers };

    ghost quiet = { λ c. R.quiet c.rule.now };

    ghost below = { λ c. R.below c.rule.now };

    fn states(&self) -> u16 {
        self.rule.states()
    }

    fn ask(&mut self, around: &Around) -> u8 {
        self.count = self.count.saturating_add(1);
        self.asked = Tag::of::<Tag, OneMore>(&self.asked);
        self.rule.next(around)
    }
}

/// Three states: a live cell of the state 1 goes on to the state 2, and stays there.
#[derive(Clone, Copy)]
pub struct Ageing;

impl Next for Ageing {
    ghost use Rattle.std.specs.Prelude.{slice_index, ◌==◌, if◌then◌else◌, refl};
    ghost use Rattle.std.proofs.Common.{arith};

    ghost state_count = { λ _. 3 };

    ghost meaning = { λ _ states. if slice_index states 0 == 0 then 0 else 2 };

    fn states(&self) -> u16 {
        3
    }

    fn next(&self, around: &Around) -> u8 {
        if around.0[0] == 0 { 0 } else { 2 }
    }

    ghost quiet = { λ _. refl };

    ghost below = { λ _ states _. Prim.grind arith };
}
