//! A rule's answers for all blocks of 4 by 4 cells of two states.
ghost use Rattle.std.specs.Prelude.{◌≡◌, ◌≢◌, ◌+◌, ◌*◌, ◌<◌, ◌≤◌, ℕ, List, All, IfSome, IfNone, IfOk};
ghost use Rattle.worlds.specs.Square.{four};
ghost use Rattle.hash_life_laws.specs.Result.{later};
ghost use Rattle.hash_life_laws.specs.Puts.{IsBelow};
ghost use Rattle.bit_blocks.specs.Numbers.{of_four, two_of, block_of};
ghost use Rattle.bit_blocks.specs.Answers.{answer_at, IsAnswer, AreRight, IsLater, Keeps, IsUnknown, KeepsRule, unknown_count};

use std::alloc::{AllocError, Global};
use std::marker::Model;
use worlds::{Around, Ask};

// What is kept for a block that wasn't put to the rule yet.
const UNKNOWN: u8 = 255;

// What is kept for a block whose answer has a state above 1.
const BEYOND: u8 = 254;

// As many squares of 2 by 2 cells there are, and as many blocks.
const TWOS: u8 = 16;

const BLOCKS: usize = 1 << 16;

/// What a rule makes of the 2 by 2 cells in the middle of each block of 4 by 4 cells of the states 0
/// and 1 one generation later, as far as it was asked.
///
/// A square of 2 by 2 cells has the number nw + 2 ne + 4 sw + 8 se, and a block has that of its
/// quadrants, nw + 16 ne + 256 sw + 4096 se. In contracts this is the list of what is kept for each
/// block.
#[derive(Drop)]
pub struct Answers {
    list: Vec<u8>,
}

impl Model for Answers {
    ghost use Rattle.std.specs.Prelude.{◌≡◌, ℕ, List, length};

    ghost Value = { List ℕ };

    ghost view = { λ a. a.list.items };

    ghost invariant = { λ a. length a.list.items ≡ 65536 };
}

// The states of the square of 2 by 2 cells that the last four bits are.
fn cells(two: u16) -> [u8; 4]
    ensures { of_four result ≡ two_of two }
{
    [
        (two % 2) as u8,
        (two / 2 % 2) as u8,
        (two / 4 % 2) as u8,
        (two / 8 % 2) as u8,
    ]
}

/// The four cells in the middle of four by four one generation later, by the states of its quadrants,
/// for which the rule is asked once each.
pub fn ask_four<Q: Ask>(rule: &mut Q, nw: [u8; 4], ne: [u8; 4], sw: [u8; 4], se: [u8; 4]) -> [u8; 4]
    requires { IsBelow (Q.state_count rule.old)
        (four (of_four nw) (of_four ne) (of_four sw) (of_four se)) }
    ensures next { of_four result ≡ later (Q.meaning rule.old)
        (four (of_four nw) (of_four ne) (of_four sw) (of_four se)) }
    ensures rule { KeepsRule Q.meaning Q.state_count rule.old rule.new }
    ensures asks { Q.asks rule.new ≡ Q.asks rule.old + 4 }
{
    let [a, b, c, d] = nw;
    let [e, f, g, h] = ne;
    let [i, j, k, l] = sw;
    let [m, n, o, p] = se;
    [
        rule.ask(&Around([d, b, e, g, m, j, i, c, a])),
        rule.ask(&Around([g, e, f, h, n, m, j, d, b])),
        rule.ask(&Around([j, d, g, m, o, l, k, i, c])),
        rule.ask(&Around([m, g, h, n, p, o, l, j, d])),
    ]
}

// The answer with these four states, as it is kept.
fn number_of(states: [u8; 4]) -> u8
    ensures answer { IsAnswer result (of_four states) }
    ensures known { result ≢ UNKNOWN }
{
    let [nw, ne, sw, se] = states;
    if nw > 1 || ne > 1 || sw > 1 || se > 1 {
        return BEYOND;
    }
    nw + 2 * ne + 4 * sw + 8 * se
}

// What is kept, where it is a number.
fn as_number(answer: u8) -> Option<u8>
    ensures some { IfSome result (λ number. (number ≡ answer) × (number < 16)) }
    ensures none { IfNone result (16 ≤ answer) }
{
    if answer < TWOS { Some(answer) } else { None }
}

// A list of as many blocks that weren't put to the rule yet.
fn unknown_list(alloc: Global, count: usize) -> Result<Vec<u8>, AllocError>
    ensures { IfOk result (λ list. IsUnknown count list.items) }
{
    vec![in alloc; UNKNOWN; count]
}

impl Answers {
    /// None, which is right for every rule.
    pub fn nothing(alloc: Global) -> Result<Answers, AllocError>
        ensures right { IfOk result (λ known. (next : List ℕ → ℕ) → AreRight next known) }
        ensures unknown { IfOk result (λ known. unknown_count known ≡ 65536) }
    {
        Ok(Answers {
            list: unknown_list(alloc, BLOCKS)?,
        })
    }

    // Puts a block to the rule, and keeps the answer.
    fn ask<Q: Ask>(&mut self, rule: &mut Q, block: u16) -> u8
        requires right { AreRight (Q.meaning rule.old) self.old }
        requires unknown { answer_at self.old block ≡ UNKNOWN }
        requires two { 2 ≤ Q.state_count rule.old }
        ensures keeps { Keeps Q.meaning Q.state_count Q.asks rule.old rule.new self.old self.new }
        ensures answer { IsAnswer result (later (Q.meaning rule.old) (block_of block)) }
        ensures known { result ≢ UNKNOWN }
    {
        let nw = cells(block);
        let ne = cells(block / 16);
        let sw = cells(block / 256);
        let se = cells(block / 4096);
        let states = ask_four(rule, nw, ne, sw, se);
        let answer = number_of(states);
        self.list[usize::from(block)] = answer;
        answer
    }

    // The same as `one_later`, for a block that has no number kept. Most have, so that this doesn't
    // stand in the loop.
    #[inline(never)]
    fn seek<Q: Ask>(&mut self, rule: &mut Q, block: u16) -> Option<u8>
        requires right { AreRight (Q.meaning rule.old) self.old }
        ensures keeps { Keeps Q.meaning Q.state_count Q.asks rule.old rule.new self.old self.new }
        ensures later { IfSome result (IsLater (Q.meaning rule.old) block) }
        ensures none { IfNone result (2 < Q.state_count rule.old) }
    {
        // By its contract any rule has two states at least, so that it can be asked for a block.
        let _count = rule.states();
        let kept = self.list[usize::from(block)];
        if kept == UNKNOWN {
            as_number(self.ask(rule, block))
        } else {
            as_number(kept)
        }
    }

    /// The number of the square in the middle of a block one generation later, or `None` where it
    /// has a state above 1.
    #[inline(always)]
    pub(crate) fn one_later<Q: Ask>(&mut self, rule: &mut Q, block: u16) -> Option<u8>
        requires right { AreRight (Q.meaning rule.old) self.old }
        ensures keeps { Keeps Q.meaning Q.state_count Q.asks rule.old rule.new self.old self.new }
        ensures later { IfSome result (IsLater (Q.meaning rule.old) block) }
        ensures none { IfNone result (2 < Q.state_count rule.old) }
    {
        let kept = self.list[usize::from(block)];
        if kept < TWOS {
            return Some(kept);
        }
        self.seek(rule, block)
    }
}
