//! Asking a rule that doesn't count.
//!
//! Most of what a pattern asks is of cells of the states 0 and 1, which have 512 neighbourhoods in all. The
//! rule's answers for them are kept, since to follow a tree takes longer than to find one.
ghost use Rattle.std.specs.Prelude.{◌≡◌, ◌+◌, ◌<◌, IfSome};
ghost use Rattle.hash_engine.specs.Neighbourhoods.{states_of, AreAnswers};

use boxcar::tag::{Names, Tag};
use std::marker::Model;
use worlds::{Around, Ask, Next};

// A number more in a list of numbers.
struct OneMore;

impl Names<Tag> for OneMore {
    ghost use Rattle.std.specs.Prelude.{◌∷◌};

    ghost numbers = { λ t. 0 ∷ t.numbers };
}

/// How often a rule was asked. It takes no bytes and has no last value.
#[derive(Drop)]
struct Count {
    tag: Tag,
}

impl Model for Count {
    ghost use Rattle.std.specs.Prelude.{ℕ, length};

    ghost Value = { ℕ };

    ghost view = { λ c. length c.tag.numbers };
}

impl Count {
    // Of nothing yet.
    fn none() -> Count
        ensures { result ≡ 0 }
    {
        Count { tag: Tag::empty() }
    }

    // One more.
    fn raise(&mut self)
        ensures { self.new ≡ self.old + 1 }
    {
        self.tag = Tag::of::<Tag, OneMore>(&self.tag);
    }
}

// As many neighbourhoods there are of the states 0 and 1.
const NEIGHBOURHOODS: usize = 512;

// What is kept for one that the rule wasn't asked for. An answer of this state isn't kept.
const UNKNOWN: u8 = 255;

/// A rule together with how often it was asked, and what it answers for neighbourhoods of the states 0
/// and 1.
#[derive(Drop)]
pub struct Asking<'r, R: Next> {
    rule: &'r R,
    count: Count,
    // By the neighbourhoods' numbers.
    known: [u8; 512],
    ghost answers: { AreAnswers (R.meaning rule.now) known },
}

// The number of a neighbourhood whose states are all 0 or 1. The first state is its lowest bit.
fn number_of(around: &Around) -> Option<usize>
    ensures few { IfSome result (λ number. number < 512) }
    ensures states { IfSome result (λ number. states_of number ≡ around.now.0) }
{
    let [a, b, c, d, e, f, g, h, i] = around.0;
    if a > 1 || b > 1 || c > 1 || d > 1 || e > 1 || f > 1 || g > 1 || h > 1 || i > 1 {
        return None;
    }
    let low = a + 2 * b + 4 * c + 8 * d;
    let high = e + 2 * f + 4 * g + 8 * h;
    Some(usize::from(low) + 16 * usize::from(high) + 256 * usize::from(i))
}

impl<'r, R: Next> Asking<'r, R> {
    /// The rule, which wasn't asked yet.
    pub fn new(rule: &'r R) -> Asking<'r, R>
        ensures rule { result.rule.now ≡ rule.now }
        ensures asks { result.count ≡ 0 }
    {
        Asking {
            rule,
            count: Count::none(),
            known: [UNKNOWN; NEIGHBOURHOODS],
        }
    }
}

impl<'r, R: Next> Ask for Asking<'r, R> {
    ghost state_count = { λ a. R.state_count a.rule.now };

    ghost meaning = { λ a. R.meaning a.rule.now };

    ghost asks = { λ a. a.count };

    ghost quiet = { λ a. R.quiet a.rule.now };

    ghost below = { λ a. R.below a.rule.now };

    fn states(&self) -> u16 {
        self.rule.states()
    }

    fn ask(&mut self, around: &Around) -> u8 {
        self.count.raise();
        let Some(number) = number_of(around) else {
            return self.rule.next(around);
        };
        let known = self.known[number];
        if known != UNKNOWN {
            return known;
        }
        let answer = self.rule.next(around);
        self.known[number] = answer;
        answer
    }
}
