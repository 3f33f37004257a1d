ghost use Rattle.std.specs.Prelude.{◌+◌, ◌*◌, ◌≤◌};

use super::rules::Counting;
use super::same;
use super::squares::{Cells, block_at, life, quadrants, soup};
use bit_blocks::{Answers, four_later};
use std::alloc::Global;
use std::process::Abort;
use test_rules::Life;

// Notes the blocks that overlap in so many rows and columns of squares of 2 by 2 cells, the first of
// which is at (corner, corner), where they weren't noted yet.
fn note_blocks(rt: &impl Abort, blocks: &mut Vec<u16>, cells: &Cells, corner: usize, count: usize)
    requires { corner + 2 * count ≤ 16 }
{
    for place in 0..64usize {
        let (column, row) = (place % 8, place / 8);
        if column < count && row < count {
            let block = block_at(cells, corner + 2 * column, corner + 2 * row);
            if !blocks.contains(&block) {
                blocks.push(block).expect(rt, "memory");
            }
        }
    }
}

// Notes the blocks that are looked at on the way.
fn note_all(rt: &impl Abort, blocks: &mut Vec<u16>, cells: &Cells) {
    let second = life(cells);
    let third = life(&second);
    note_blocks(rt, blocks, cells, 0, 7);
    note_blocks(rt, blocks, &second, 1, 6);
    note_blocks(rt, blocks, &third, 2, 5);
    note_blocks(rt, blocks, &life(&third), 3, 4);
}

// Four asks for each.
fn asks_for(blocks: &[u16]) -> u64 {
    (blocks.len() as u64).saturating_mul(4)
}

/// Two squares one after another, and the first again: each block is asked for once.
#[test]
fn asks_for_each_block_once(rt: HostRuntime) {
    let alloc = rt.alloc();
    let (first, second) = (soup(1), soup(2));
    let mut blocks = Vec::new(alloc);
    let mut answers = Answers::nothing(alloc).expect(&rt, "memory");
    let mut rule = Counting::new(&Life);
    note_all(&rt, &mut blocks, &first);
    let _ = four_later(&mut answers, &mut rule, &quadrants(&first));
    same(&rt, &rule.count, &asks_for(&blocks), &1);
    note_all(&rt, &mut blocks, &second);
    let _ = four_later(&mut answers, &mut rule, &quadrants(&second));
    same(&rt, &rule.count, &asks_for(&blocks), &2);
    let again = four_later(&mut answers, &mut rule, &quadrants(&first));
    same(&rt, &rule.count, &asks_for(&blocks), &3);
    same(&rt, &again, &super::found(&rt, alloc, &Life, &first), &4);
}
