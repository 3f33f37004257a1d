//! What is remembered of a computation: the results by the numbers of their squares.

ghost use Rattle.std.specs.Prelude.{◌≡◌, ◌+◌, ◌-◌, ◌^◌, ◌<◌, ◌≤◌, ℕ, List, false, length, get_or, IfSome, IfNone, OnOk, OnErr};
ghost use Rattle.square_table.specs.Squares.{Table, first_number};
ghost use Rattle.hash_life_laws.specs.Result as life;
ghost use Rattle.bit_blocks.specs.Answers.{KeepsRule};
ghost use Rattle.bit_blocks.specs.Numbers.{eight_of, sixteen_of};
ghost use Rattle.hash_engine.specs.Memo.{ClearsFor, TurnsSmall, StaysRightUnder, IsRightMemo, IsNoted, IsRemembered, KeepsRows, HasNoFull, HasPut, HasMade, RecallsResult, RecallsPut, RecallsMade, RecallsBlock, StaysRight, StaysRightWith, StaysRightFor, StaysPutFor, StaysMadeFor};

use crate::block::{Block, Blocks};
use bit_blocks::{Answers, four_later};
use square_table::SquareTable;
use std::alloc::{AllocError, Global};
use worlds::Ask;

// Below it numbers are those of cells.
const FIRST_NUMBER: u32 = 256;

/// As many generations as a square of level k + 2 is asked for at once, which is 2^k.
pub(crate) fn full(k: u8) -> u64
    requires { k ≤ 61 }
    ensures { result ≡ 2 ^ k }
{
    1u64 << k
}

/// The results that are known of a table's squares under one rule, for two counts of generations a
/// level: the full one, and one other, which a search's generations decide. Those by the full count are
/// noted in the table.
pub struct Memo {
    // Those by the other count, by the numbers of the squares, 0 where none is known.
    part: Vec<u32>,
    // Whether a search makes no square that it doesn't need, and the results of blocks that aren't
    // squares of the table then.
    is_lean: bool,
    blocks: Blocks,
    // Whether the table begins with the small squares, and what the rule answers for them.
    has_small: bool,
    answers: Option<Answers>,
    alloc: Global,
    // The other count, by k, and the generations that decide it.
    counts: [u64; 62],
    generations: u64,
}

// Written out, as a derived one is proved again in each crate above.
impl Drop for Memo {
    fn drop(self) {
        let Memo {
            part: _,
            is_lean: _,
            blocks: _,
            has_small: _,
            answers: _,
            alloc: _,
            counts: _,
            generations: _,
        } = self;
    }
}

// The counts less than the full ones for which squares of each level are asked on the way of a
// search by as many generations, from whatever level it begins.
fn counts(generations: u64) -> [u64; 62] {
    let mut counts = [0; 62];
    let mut rest = generations;
    for level in (0..62u8).rev() {
        counts[usize::from(level)] = rest;
        let half = full(level) / 2;
        if rest > half {
            rest -= half;
        }
    }
    counts
}

// The result at a number.
fn found(known: &[u32], number: u32) -> Option<u32>
    requires { first_number ≤ number }
    ensures some { IfSome result (λ r.
        (0 < r) × (get_or known.now (number - first_number) 0 ≡ r)) }
    ensures none { IfNone result (get_or known.now (number - first_number) 0 ≡ 0) }
{
    match known.get((number - FIRST_NUMBER) as usize) {
        None | Some(0) => None,
        Some(result) => Some(*result),
    }
}

// The result that is noted in a table.
fn noted(table: &SquareTable<'_>, number: u32) -> Option<u32>
    requires above { first_number ≤ number }
    requires there { number < first_number + length table.now.rows }
    ensures some { IfSome result (λ r.
        (0 < r) × (get_or table.now.notes (number - first_number) 0 ≡ r)) }
    ensures none { IfNone result (get_or table.now.notes (number - first_number) 0 ≡ 0) }
{
    match table.noted(number) {
        0 => None,
        result => Some(result),
    }
}

// A list that is too short grows by so many places, since results are mostly noted in the order in which
// squares are made.
const STEP: usize = 1024;

// Writes the result of a number down. The list's room is doubled where it is too short.
fn note(known: &mut Vec<u32>, number: u32, found: u32) -> Result<(), AllocError>
    requires { first_number ≤ number }
    ensures ok { OnOk result (IsNoted (number - first_number) found known.old.items known.new.items) }
    ensures err { OnErr result (known.new.items ≡ known.old.items) }
{
    let place = (number - FIRST_NUMBER) as usize;
    if place >= known.len() {
        known.resize(place + STEP, 0)?;
    }
    known[place] = found;
    Ok(())
}

impl Memo {
    /// Nothing yet, where nothing is noted in the table either.
    #[tactic(auto, using(crate::proofs::Shared::Memos::no_full))]
    pub fn nothing(alloc: Global) -> Memo
        ensures right { (next : List ℕ → ℕ) (t : Table) → HasNoFull t → IsRightMemo next t result }
        ensures put { (next : List ℕ → ℕ) (t : Table) → HasNoFull t → HasPut next t result }
        ensures made { (next : List ℕ → ℕ) (t : Table) → HasNoFull t → HasMade next t result }
    {
        Memo {
            part: Vec::new(alloc),
            is_lean: false,
            blocks: Blocks::nothing(alloc),
            has_small: false,
            answers: None,
            alloc,
            counts: [0; 62],
            generations: 0,
        }
    }

    /// Gives up all results but the table's, and keeps their memory. The table may be another one.
    #[tactic(auto, using(crate::proofs::Shared::Memos::no_full))]
    pub fn clear(&mut self)
        ensures right { ClearsFor self.old self.new }
        ensures small { self.new.has_small ≡ false }
    {
        Vec::clear(&mut self.part);
        self.blocks.clear();
        self.has_small = false;
    }

    /// Notes that the table begins with the small squares. What the rule answered for them before is
    /// known still.
    pub fn turn_small(&mut self)
        ensures { TurnsSmall self.old self.new }
    {
        self.has_small = true;
    }

    /// Whether that is noted.
    pub fn has_small(&self) -> bool
        ensures { result ≡ self.now.has_small }
    {
        self.has_small
    }

    /// From now on a search makes no square that it doesn't need.
    pub(crate) fn turn_lean(&mut self)
        ensures { StaysRightFor self.old self.new }
    {
        self.is_lean = true;
    }

    /// Whether a search makes no square that it doesn't need.
    pub(crate) fn is_lean(&self) -> bool
        ensures { result ≡ self.now.is_lean }
    {
        self.is_lean
    }

    // Makes a list of the rule's answers, where there is none and there is memory for one.
    fn make_answers(&mut self)
        ensures { StaysRightFor self.old self.new }
    {
        if self.answers.is_none() {
            self.answers = Answers::nothing(self.alloc).ok();
        }
    }

    /// The middle of a square of 16 by 16 cells four generations later, each by its blocks, where there
    /// is memory for the rule's answers and no cell on the way has a state above 1.
    pub(crate) fn later_by_blocks<Q: Ask>(
        &mut self,
        rule: &mut Q,
        blocks: [[u16; 4]; 4],
    ) -> Option<[u16; 4]>
        requires { (t : Table) × IsRightMemo (Q.meaning rule.old) t self.old }
        ensures right { StaysRightUnder (Q.meaning rule.old) self.old self.new }
        ensures rule { KeepsRule Q.meaning Q.state_count rule.old rule.new }
        ensures later { IfSome result (λ r.
            eight_of r ≡ life.result (Q.meaning rule.old) 2 4 (sixteen_of blocks)) }
    {
        self.make_answers();
        four_later(self.answers.as_mut()?, rule, &blocks)
    }

    /// The result of a block one generation later, where it is known.
    pub(crate) fn recall_block(&self, quadrants: &[u32; 4]) -> Option<u32>
        ensures { IfSome result (RecallsBlock self.now quadrants.now) }
    {
        self.blocks.recall(quadrants)
    }

    /// Remembers it.
    pub(crate) fn keep_block(&mut self, block: Block)
        ensures { StaysRightWith block self.old self.new }
    {
        self.blocks.keep(block);
    }

    /// Makes it ready for a search by so many generations. Results by the other counts are given up
    /// where the last search was by another number.
    pub fn turn_to(&mut self, generations: u64)
        ensures right { StaysRightFor self.old self.new }
        ensures put { StaysPutFor self.old self.new }
        ensures made { StaysMadeFor self.old self.new }
    {
        if generations == self.generations {
            return;
        }
        self.part.clear();
        self.counts = counts(generations);
        self.generations = generations;
    }

    /// The result of a square of level k + 2 by as many generations, where it is known.
    pub(crate) fn recall(
        &self,
        table: &SquareTable<'_>,
        k: u8,
        generations: u64,
        number: u32,
    ) -> Option<u32>
        requires k { k ≤ 61 }
        requires number { (first_number ≤ number) × (number < first_number + length table.now.rows) }
        ensures some { IfSome result (RecallsResult table.now self.now k generations number) }
        ensures put { IfSome result (λ _. RecallsPut table.now self.now k generations number) }
        ensures made { IfSome result (λ _. RecallsMade table.now self.now k generations number) }
        ensures none { IfNone result (generations ≡ 2 ^ k →
            get_or table.now.notes (number - first_number) 0 ≡ 0) }
    {
        if generations == full(k) {
            noted(table, number)
        } else if generations == self.counts[usize::from(k)] {
            found(&self.part, number)
        } else {
            None
        }
    }

    /// Remembers it. After a refusal what was known is known still.
    pub(crate) fn remember(
        &mut self,
        table: &mut SquareTable<'_>,
        k: u8,
        generations: u64,
        number: u32,
        found: u32,
    ) -> Result<(), AllocError>
        requires k { k ≤ 61 }
        requires number { (first_number ≤ number) × (number < first_number + length table.old.rows) }
        requires found { found < first_number + length table.old.rows }
        ensures rows { KeepsRows table.old table.new }
        ensures right { StaysRight k generations number found
            table.old self.old table.new self.new }
        ensures noted { OnOk result (IsRemembered k generations number found
            table.old self.old table.new self.new) }
    {
        if generations == full(k) {
            table.note(number, found);
            Ok(())
        } else if generations == self.counts[usize::from(k)] {
            note(&mut self.part, number, found)
        } else {
            Ok(())
        }
    }
}
