//! The fast search for the first of many rows that matches.
ghost use Rattle.std.specs.Prelude.{◌≡◌, ◌≤◌, ◌<◌, ◌+◌, ◌*◌, ℕ, [], length, take, slice_index, slice_index_or, IfOk, All};
ghost use Rattle.std.specs.Int.{bit_at};
ghost use Rattle.rule_file.specs.States.{most_states};
ghost use Rattle.table_symmetry.specs.NextState.{inputs_of, places_of};
ghost use Rattle.table_symmetry.specs.States.{word_of};
ghost use Rattle.table_symmetry.specs.Lookup.{FindsFirstRow, HasBits, HasBitsOf, HasColumns, HaveBitsOf, HaveInputs, IsLookupOf, TellRows, set_at, word_of_each};

use crate::expansion::Expanded;
use basics::Listing;
use plane_core::Around;
use std::alloc::{AllocError, Global};
use table_lines::Neighborhood;

/// Expanded transitions, laid out for the search of the first that matches: for each place, the
/// cell's first, and each state a column of bits, a bit a row, 64 in a word. The rows that match
/// are those whose bit is set in the column of each place and the state there.
#[derive(Debug, Drop)]
pub struct Lookup {
    neighborhood: Neighborhood,
    columns: Listing<Listing<Listing<u64>>>,
    results: Listing<u8>,
}

impl Lookup {
    /// The look-up of no rows. Takes no memory.
    pub fn empty(alloc: Global, neighborhood: Neighborhood) -> Lookup
        ensures { (states : ℕ) → IsLookupOf [] states neighborhood result }
    {
        Lookup {
            neighborhood,
            columns: Listing::from_vec(Vec::new(alloc)),
            results: Listing::from_vec(Vec::new(alloc)),
        }
    }

    /// The look-up of these rows, whose inputs the neighbourhood lists, for states below `states`.
    /// Fails if memory runs out.
    pub fn new(
        alloc: Global,
        states: u16,
        neighborhood: Neighborhood,
        rows: &[Expanded],
    ) -> Result<Lookup, AllocError>
        requires states { states ≤ most_states }
        requires inputs { HaveInputs neighborhood rows.now }
        ensures { IfOk result (λ lookup. IsLookupOf rows.now states neighborhood lookup) }
    {
        let mut columns = Vec::new(alloc);
        for place in 0..input_count(neighborhood) {
            columns.push(columns_of(alloc, states, place, rows)?)?;
        }
        let results: Vec<u8> = rows.iter().map(|row| row.result).collect(alloc)?;
        Ok(Lookup {
            neighborhood,
            columns: Listing::from_vec(columns),
            results: Listing::from_vec(results),
        })
    }

    /// The result of the first row that matches the states at and around a cell.
    pub fn find(&self, around: &Around) -> Option<u8>
        ensures { FindsFirstRow self.now around.now.0 result }
    {
        let picked = picked(self.neighborhood, around);
        let inputs = &picked[..input_count(self.neighborhood)];
        let results = self.results.as_slice();
        for word in 0..results.len().div_ceil(64) {
            let rows = self.matching(inputs, word);
            if rows != 0 {
                return results
                    .get(64 * word + rows.trailing_zeros() as usize)
                    .copied();
            }
        }
        None
    }

    /// The 64 rows of a word that have these states at their places, a bit each.
    fn matching(&self, inputs: &[u8], word: usize) -> u64
        ensures { TellRows self.now.columns inputs.now word result }
    {
        let mut rows = u64::MAX;
        for (columns, state) in self.columns.as_slice().iter().zip(inputs) {
            rows &= word_at(columns, *state, word);
            if rows == 0 {
                return 0;
            }
        }
        rows
    }
}

/// A word of the column of a state: 0 where there is none.
fn word_at(columns: &Listing<Listing<u64>>, state: u8, word: usize) -> u64
    ensures { result ≡ slice_index (slice_index_or columns.now state []) word }
{
    match columns.as_slice().get(usize::from(state)) {
        Some(column) => column.as_slice().get(word).copied().unwrap_or(0),
        None => 0,
    }
}

/// How many inputs a row has: the cell and its neighbours.
pub(crate) fn input_count(neighborhood: Neighborhood) -> usize
    ensures { result ≡ length (places_of neighborhood) + 1 }
{
    match neighborhood {
        Neighborhood::VonNeumann => 5,
        Neighborhood::Moore => 9,
        Neighborhood::Hexagonal => 7,
        Neighborhood::OneDimensional => 3,
    }
}

/// The states of a row's inputs, before states that don't matter.
pub(crate) fn picked(neighborhood: Neighborhood, around: &Around) -> [u8; 9]
    ensures { take (length (places_of neighborhood) + 1) result
        ≡ inputs_of neighborhood around.now.0 }
{
    let [c, n, ne, e, se, s, sw, w, nw] = around.0;
    match neighborhood {
        Neighborhood::VonNeumann => [c, n, e, s, w, 0, 0, 0, 0],
        Neighborhood::Moore => [c, n, ne, e, se, s, sw, w, nw],
        Neighborhood::Hexagonal => [c, n, e, se, s, w, nw, 0, 0],
        Neighborhood::OneDimensional => [c, w, e, 0, 0, 0, 0, 0, 0],
    }
}

/// The columns of all states at one place of the inputs.
fn columns_of(
    alloc: Global,
    states: u16,
    place: usize,
    rows: &[Expanded],
) -> Result<Listing<Listing<u64>>, AllocError>
    requires states { states ≤ most_states }
    requires place { All (λ row. place < length row.inputs) rows.now }
    ensures { IfOk result (λ columns. HasColumns rows.now states place columns) }
{
    let mut columns = Vec::new(alloc);
    let mut words = Vec::new(alloc);
    let mut unions = Vec::new(alloc);
    for state in 0..states {
        // a quarter of all the sets at a time stays in the cache
        if state % 64 == 0 {
            words = words_of(alloc, place, usize::from(state / 64), rows)?;
            unions = unions_of(alloc, &words)?;
        }
        let column = column(alloc, &words, &unions, u32::from(state % 64))?;
        columns.push(Listing::from_vec(column))?;
    }
    Ok(Listing::from_vec(columns))
}

/// One of the four words of each row's set at a place.
fn words_of(
    alloc: Global,
    place: usize,
    word: usize,
    rows: &[Expanded],
) -> Result<Vec<u64>, AllocError>
    requires word { word < 4 }
    requires place { All (λ row. place < length row.inputs) rows.now }
    ensures { IfOk result (λ words. words.items ≡ word_of_each place word rows.now) }
{
    rows.iter()
        .map(|row| word_in(row, place, word))
        .collect(alloc)
}

/// One of the four words of a row's set at a place.
fn word_in(row: &Expanded, place: usize, word: usize) -> u64
    requires word { word < 4 }
    requires place { place < length row.now.inputs }
    ensures { result ≡ word_of (set_at place row.now) word }
{
    row.inputs.as_slice()[place].word(word)
}

/// For each 64 of the words the bits that one of them has.
fn unions_of(alloc: Global, words: &[u64]) -> Result<Vec<u64>, AllocError>
    ensures { IfOk result (λ unions. HaveBitsOf unions.items words.now) }
{
    let count = words.len().div_ceil(64);
    let mut unions = Vec::with_capacity(alloc, count)?;
    for number in 0..count {
        unions.push(bits_of_any(block(words, number)))?;
    }
    Ok(unions)
}

/// The words from 64 times the number on, 64 at most.
fn block(words: &[u64], number: usize) -> &[u64]
    requires { 64 * number ≤ length words.now }
    ensures few { length result.now ≤ 64 }
    ensures each { (place : ℕ) → place < 64 →
        slice_index result.now place ≡ slice_index words.now (64 * number + place) }
{
    let rest = &words[64 * number..];
    &rest[..rest.len().min(64)]
}

/// One bit of each word, 64 of them in a word.
fn column(alloc: Global, words: &[u64], unions: &[u64], bit: u32) -> Result<Vec<u64>, AllocError>
    requires bit { bit < 64 }
    requires unions { HaveBitsOf unions.now words.now }
    ensures { IfOk result (λ column. HasBits column.items words.now bit) }
{
    let mut column = Vec::with_capacity(alloc, unions.len())?;
    for (number, union) in unions.iter().enumerate() {
        column.push(column_word(words, number, *union, bit))?;
    }
    Ok(column)
}

/// One bit of each of 64 words, of which most often none has it.
fn column_word(words: &[u64], number: usize, union: u64, bit: u32) -> u64
    requires number { 64 * number ≤ length words.now }
    requires bit { bit < 64 }
    requires union { HasBitsOf union words.now number }
    ensures { (place : ℕ) → place < 64 →
        bit_at result place ≡ bit_at (slice_index words.now (64 * number + place)) bit }
{
    if (union >> bit) & 1 == 0 {
        return 0;
    }
    bits(block(words, number), bit)
}

/// One bit of each word, the first lowest.
fn bits(words: &[u64], bit: u32) -> u64
    requires words { length words.now ≤ 64 }
    requires bit { bit < 64 }
    ensures { (place : ℕ) → bit_at result place ≡ bit_at (slice_index words.now place) bit }
{
    let mut bits = 0;
    for (place, word) in words.iter().enumerate() {
        bits |= ((*word >> bit) & 1) << place;
    }
    bits
}

/// The bits that one of the words has.
fn bits_of_any(words: &[u64]) -> u64
    ensures { (bit : ℕ) → bit_at result bit ≡ 0 →
        (place : ℕ) → bit_at (slice_index words.now place) bit ≡ 0 }
{
    let mut bits = 0;
    for word in words {
        bits |= *word;
    }
    bits
}
