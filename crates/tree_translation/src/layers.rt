//! The rows of a table, cut up for a tree.
ghost use Rattle.std.specs.Prelude.{◌≡◌, ◌==◌, ◌≤◌, ◌<◌, ◌+◌, ◌*◌, ◌∷◌, ℕ, length, slice_index, slice_index_or, All, IfOk, OnOk};
ghost use Rattle.std.specs.Int.{bit_at};
ghost use Rattle.indexmap.specs.IndexSet.{insert_key};
ghost use Rattle.table_symmetry.specs.declared.expansion.Expanded.{Expanded};
ghost use Rattle.table_symmetry.specs.Expanded.{transition_limit};
ghost use Rattle.tree_translation.specs.Layers.{AreLayersOf, IsKeptAt, IsLayer, IsLayerOf, asked_at};

use indexmap::IndexSet;
use std::alloc::{AllocError, Global};
use std::hash::Hash;
use table_symmetry::{Expanded, StateSet};

/// What is left of a row before an input: the number of the set that the input has to be in, and
/// of what is left behind it. Behind the last input that is the row's result.
#[derive(Clone, Copy, Debug, PartialEq, Eq, Hash)]
pub struct Tail {
    pub set: u32,
    pub rest: u32,
}

/// What may be left of rows before an input. Rows of which the same is left share a tail.
#[derive(Debug, Drop)]
pub struct Layer {
    /// The sets that the input may have to be in, where None is any state.
    pub sets: Vec<Option<StateSet>>,
    pub tails: Vec<Tail>,
}

impl Layer {
    ghost use Rattle.tree_translation.specs.Layers.{lets};

    /// Whether a tail of this layer lets the input be this state.
    pub fn lets(&self, number: u32, state: u8) -> bool
        requires number { number < length self.now.tails.items }
        requires sets { All (λ tail. tail.set < length self.now.sets.items) self.now.tails.items }
        ensures { result ≡ lets self.now number state }
    {
        let tail = self.tails[number as usize];
        match &self.sets[tail.set as usize] {
            Some(set) => set.has(state),
            None => true,
        }
    }

    /// Which of the 64 states of a block a tail of this layer lets be the input, a bit each.
    pub fn word(&self, number: u32, block: usize) -> u64
        requires block { block < 4 }
        requires number { number < length self.now.tails.items }
        requires sets { All (λ tail. tail.set < length self.now.sets.items) self.now.tails.items }
        ensures { (bit : ℕ) → bit < 64 →
            (bit_at result bit == 1) ≡ lets self.now number (64 * block + bit) }
    {
        let tail = self.tails[number as usize];
        match &self.sets[tail.set as usize] {
            Some(set) => set.word(block),
            None => u64::MAX,
        }
    }
}

/// The layers of these rows, and the number of each row's tail in the first. `order` has for each
/// input where it stands in a row, if it does. The layers fit each count of states that is above
/// the results.
pub fn layers_of(
    alloc: Global,
    order: &[Option<usize>],
    rows: &[Expanded],
) -> Result<(Vec<Layer>, Vec<u32>), AllocError>
    requires { length rows.now ≤ transition_limit }
    ensures count { IfOk result (λ r. length r.1.items ≡ length rows.now) }
    ensures layers { IfOk result (λ r. (states : ℕ) → All (λ row. row.result < states) rows.now →
        AreLayersOf states order.now rows.now r.0.items r.1.items) }
{
    match order {
        [] => Ok((Vec::new(alloc), results_of(alloc, rows)?)),
        [place, others @ ..] => {
            let (mut layers, rests) = layers_of(alloc, others, rows)?;
            let (layer, numbers) = layer_of(alloc, *place, rows, &rests)?;
            layers.insert(0, layer)?;
            Ok((layers, numbers))
        }
    }
}

fn results_of(alloc: Global, rows: &[Expanded]) -> Result<Vec<u32>, AllocError>
    ensures count { IfOk result (λ results. length results.items ≡ length rows.now) }
    ensures each { IfOk result (λ results. (k : ℕ) (d : Expanded) → k < length rows.now →
        slice_index results.items k ≡ (slice_index_or rows.now k d).result) }
{
    rows.iter().map(|row| u32::from(row.result)).collect(alloc)
}

// Keys, each of which has the number at which it came first.
struct Distinct<T: Hash + Eq + Drop> {
    keys: IndexSet<T>,
}

// Written out, as a set's own is proved again at each exit of a function that has one.
impl<T: Hash + Eq + Drop> Drop for Distinct<T> {
    fn drop(self) {
        let Distinct { keys: _ } = self;
    }
}

// The layer of the input at this place of the rows, and the number of each row's tail, by what is
// left of each row behind the input.
fn layer_of(
    alloc: Global,
    place: Option<usize>,
    rows: &[Expanded],
    rests: &[u32],
) -> Result<(Layer, Vec<u32>), AllocError>
    requires few { length rows.now ≤ transition_limit }
    requires rests { length rests.now ≡ length rows.now }
    ensures layer { IfOk result (λ r. (count : ℕ) → All (λ rest. rest < count) rests.now →
        IsLayer r.0 count) }
    ensures rows { IfOk result (λ r. IsLayerOf place rows.now rests.now r.0 r.1.items) }
{
    let mut sets = Distinct {
        keys: IndexSet::new(alloc),
    };
    let mut tails = Distinct {
        keys: IndexSet::new(alloc),
    };
    let mut numbers = Vec::with_capacity(alloc, rows.len())?;
    for (row, rest) in rows.iter().zip(rests) {
        let set = number_in(&mut sets.keys, asked(place, row))?;
        let number = number_in(&mut tails.keys, Tail { set, rest: *rest })?;
        numbers.push(number)?;
    }
    let sets = sets.keys.as_slice().to_vec(alloc)?;
    let tails = tails.keys.as_slice().to_vec(alloc)?;
    Ok((Layer { sets, tails }, numbers))
}

// What a row asks of its input at this place.
fn asked(place: Option<usize>, row: &Expanded) -> Option<StateSet>
    ensures { result ≡ asked_at place row.now.inputs }
{
    row.inputs.as_slice().get(place?).copied()
}

// The number of a key among these, of which it becomes the last where it isn't there.
fn number_in<T: Hash + Eq + Drop>(keys: &mut IndexSet<T>, key: T) -> Result<u32, AllocError>
    requires few { length keys.old.keys < transition_limit }
    ensures stored { IfOk result (λ number. IsKeptAt T.eq keys.new.keys key number) }
    ensures grown { OnOk result (keys.new.keys ≡ insert_key T.eq keys.old.keys key) }
{
    let Ok((number, _)) = keys.insert_full(key) else {
        return Err(AllocError);
    };
    Ok(number as u32)
}
