//! The tails of a list that matter to some states, and the states behind which they leave the same.
//!
//! A list may have a million tails, and most of them often let but one state be the input. So only
//! those that let some of 64 states are asked state by state, and states that each tail treats
//! alike are looked at once.
ghost use Rattle.std.specs.Prelude.{◌≡◌, ◌≢◌, ◌≤◌, ◌<◌, ◌+◌, ◌/◌, ◌%◌, ℕ, length, false, All, IfOk};
ghost use Rattle.std.specs.Int.{bit_at};
ghost use Rattle.tree_translation.specs.Layers.{IsLayer, lets};
ghost use Rattle.tree_translation.specs.Near.{TreatsAlike, AreNear};

use crate::layers::Layer;
use std::alloc::{AllocError, Global};

/// The tails that matter to the 64 states among which this one is. `near` has them, unless it is
/// the first of the 64.
pub fn tails_near(
    alloc: Global,
    layer: &Layer,
    state: u8,
    list: &[u32],
    near: Vec<u32>,
) -> Result<Vec<u32>, AllocError>
    requires sets { All (λ tail. tail.set < length layer.now.sets.items) layer.now.tails.items }
    requires inside { All (λ n. n < length layer.now.tails.items) list.now }
    requires near { state % 64 ≢ 0 → AreNear layer.now (state / 64) list.now near.items }
    ensures { IfOk result (λ near. AreNear layer.now (state / 64) list.now near.items) }
{
    if state % 64 != 0 {
        return Ok(near);
    }
    tails_of_block(alloc, layer, state / 64, list)
}

// The tails that matter to a block of 64 states.
fn tails_of_block(
    alloc: Global,
    layer: &Layer,
    block: u8,
    list: &[u32],
) -> Result<Vec<u32>, AllocError>
    requires block { block < 4 }
    requires sets { All (λ tail. tail.set < length layer.now.sets.items) layer.now.tails.items }
    requires inside { All (λ n. n < length layer.now.tails.items) list.now }
    ensures { IfOk result (λ near. AreNear layer.now block list.now near.items) }
{
    let mut near = Vec::new(alloc);
    for number in list {
        if layer.word(*number, usize::from(block)) != 0 {
            near.push(*number)?;
        }
    }
    Ok(near)
}

/// How many states from this one on, of the 64 among which it is, each of these tails treats alike.
pub fn states_alike(layer: &Layer, state: u8, list: &[u32]) -> u16
    requires sets { All (λ tail. tail.set < length layer.now.sets.items) layer.now.tails.items }
    requires inside { All (λ n. n < length layer.now.tails.items) list.now }
    ensures some { 1 ≤ result }
    ensures within { state % 64 + result ≤ 64 }
    ensures alike { All (TreatsAlike layer.now state result) list.now }
{
    let mut count = 64 - u32::from(state % 64);
    for number in list {
        let word = layer.word(*number, usize::from(state / 64));
        count = count.min(bits_alike(word, u32::from(state % 64)));
        if count == 1 {
            return 1;
        }
    }
    count as u16
}

// How many bits from this one on are the same.
fn bits_alike(word: u64, bit: u32) -> u32
    requires { bit < 64 }
    ensures some { 1 ≤ result }
    ensures within { bit + result ≤ 64 }
    ensures alike { (i : ℕ) → i < result → bit_at word (bit + i) ≡ bit_at word bit }
{
    lowest_alike(word >> bit).min(64 - bit)
}

// How many of the lowest bits are the same.
fn lowest_alike(word: u64) -> u32
    ensures some { 1 ≤ result }
    ensures alike { (i : ℕ) → i < result → bit_at word i ≡ bit_at word 0 }
{
    if word == 0 {
        return 64;
    }
    if word == u64::MAX {
        return 64;
    }
    if word & 1 == 1 {
        return word.trailing_ones();
    }
    word.trailing_zeros()
}
