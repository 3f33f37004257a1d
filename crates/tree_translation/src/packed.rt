//! Lists of numbers in little memory.
//!
//! The entries of a node are a number for each state, and mostly many states in a row have the
//! same. Such a list is kept as its runs where these are fewer than half as many as the numbers.
ghost use Rattle.std.specs.Prelude.{◌≡◌, ◌<◌, ◌≤◌, ◌+◌, ◌*◌, ◌++◌, length, nat_lt, All, IfOk, OnOk};
ghost use Rattle.decision_tree.specs.Entry.{entry_range};
ghost use Rattle.rule_file.specs.States.{most_states};
ghost use Rattle.tree_translation.specs.Packed.{ends_run, keeps_runs, runs_from, spread_from};

use decision_tree::{Entry, add_entries};
use std::alloc::{AllocError, Global};
use std::hash::{Hash, Hasher};
use std::marker::Model;

/// Equal numbers in a row, up to a place.
#[derive(Clone, Copy, Debug, PartialEq, Eq, Hash)]
pub struct Run {
    pub number: Entry,
    /// The place behind the last of them.
    pub until: u16,
}

/// How numbers are kept.
#[derive(Debug, Drop)]
pub enum Form {
    Each(Vec<Entry>),
    Runs(Vec<Run>),
}

/// Numbers, which contracts see as the list of them. Equal lists are kept in the same form.
#[derive(Debug, Drop)]
pub struct Packed {
    form: Form,
}

impl Model for Packed {
    ghost use Rattle.std.specs.Prelude.{List, ℕ};
    ghost use Rattle.tree_translation.specs.PackedForms.{IsPacked, numbers_in};

    ghost Value = { List ℕ };

    ghost view = { λ packed. numbers_in packed.form };

    ghost invariant = { λ packed. IsPacked packed.form };
}

impl Packed {
    /// Packs a number for each state.
    pub fn of(alloc: Global, numbers: &[u32]) -> Result<Packed, AllocError>
        requires count { length numbers.now ≤ most_states }
        requires range { All (λ n. n < entry_range) numbers.now }
        ensures { IfOk result (λ packed. packed ≡ numbers.now) }
    {
        let runs = runs_of(alloc, numbers)?;
        let form = if 2 * runs.len() < numbers.len() {
            Form::Runs(runs)
        } else {
            Form::Each(each_of(alloc, numbers)?)
        };
        Ok(Packed { form })
    }

    /// Puts the numbers behind others.
    pub fn add_to(&self, numbers: &mut Vec<Entry>) -> Result<(), AllocError>
        ensures { OnOk result (numbers.new.items ≡ numbers.old.items ++ self.now) }
    {
        match &self.form {
            Form::Each(others) => numbers.extend_from_slice(others),
            Form::Runs(runs) => add_runs(numbers, runs),
        }
    }
}

// The runs of numbers.
fn runs_of(alloc: Global, numbers: &[u32]) -> Result<Vec<Run>, AllocError>
    requires count { length numbers.now ≤ most_states }
    requires range { All (λ n. n < entry_range) numbers.now }
    ensures { IfOk result (λ runs. runs.items ≡ runs_from 0 numbers.now) }
{
    let mut runs = Vec::new(alloc);
    for (place, number) in numbers.iter().enumerate() {
        if ends_run(numbers, place) {
            runs.push(Run {
                number: Entry::of(*number),
                until: place as u16 + 1,
            })?;
        }
    }
    Ok(runs)
}

// The numbers one by one.
fn each_of(alloc: Global, numbers: &[u32]) -> Result<Vec<Entry>, AllocError>
    requires { All (λ n. n < entry_range) numbers.now }
    ensures { IfOk result (λ entries. entries.items ≡ numbers.now) }
{
    let mut entries = Vec::with_capacity(alloc, numbers.len())?;
    add_entries(&mut entries, numbers)?;
    Ok(entries)
}

// Whether the next number is another, or there is none.
fn ends_run(numbers: &[u32], place: usize) -> bool
    requires { place + 1 ≤ length numbers.now }
    ensures { result ≡ ends_run numbers.now place }
{
    match numbers.get(place + 1) {
        Some(next) => numbers[place] != *next,
        None => true,
    }
}

// Puts the numbers of runs behind others.
fn add_runs(numbers: &mut Vec<Entry>, runs: &[Run]) -> Result<(), AllocError>
    ensures { OnOk result (numbers.new.items ≡ numbers.old.items ++ spread_from 0 runs.now) }
{
    let start = numbers.len();
    for run in runs {
        let until = numbers.len().max(start + usize::from(run.until));
        numbers.resize(until, run.number)?;
    }
    Ok(())
}

impl PartialEq for Packed {
    ghost use Rattle.std.specs.Str.{bytes_eq};
    ghost use Rattle.std.specs.Cmp.{partial_equiv_from_equiv};
    ghost use Rattle.std.specs.Cmp.Lexicographic.{nat_list_eq_equiv};

    ghost eq = { bytes_eq };

    ghost laws = { partial_equiv_from_equiv nat_list_eq_equiv };

    fn eq(&self, other: &Packed) -> bool {
        match (&self.form, &other.form) {
            (Form::Each(numbers), Form::Each(others)) => numbers == others,
            (Form::Runs(runs), Form::Runs(others)) => runs == others,
            _ => false,
        }
    }
}

impl Eq for Packed {
    ghost use Rattle.std.specs.Cmp.Lexicographic.{nat_list_eq_equiv};

    ghost laws = { nat_list_eq_equiv };
}

impl Hash for Packed {
    ghost use Rattle.tree_translation.specs.PackedForms.{hash_input_of, same_input};

    ghost hash_input = { hash_input_of };

    ghost respects_eq = { same_input };

    fn hash<H: Hasher>(&self, state: &mut H) {
        match &self.form {
            Form::Each(numbers) => numbers.hash(state),
            Form::Runs(runs) => runs.hash(state),
        }
    }
}
