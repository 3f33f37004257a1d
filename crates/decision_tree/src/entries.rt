//! The entries of all nodes of a tree.
ghost use Rattle.std.specs.Prelude.{◌≡◌, ◌<◌, ◌+◌, All, IfOk};
ghost use Rattle.decision_tree.specs.EntryForms.{are_narrow, narrow_range, states_at};
ghost use Rattle.decision_tree.specs.Kept.{nodes_in, Stores};
ghost use Rattle.decision_tree.specs.Tree.{follow};

use crate::entry::Entry;
use std::alloc::{AllocError, Global};
use std::fmt;
use std::marker::Model;

/// How entries are kept.
#[derive(Drop)]
pub enum Form {
    /// In two bytes each, where all of them fit.
    Narrow(Vec<u16>),
    /// In three bytes each.
    Wide(Vec<Entry>),
}

/// The entries of a tree, which contracts see as the list of them. Equal lists are kept in the same
/// form.
///
/// A cell's next state is asked for often, and an entry of two bytes is read in one step, while one
/// of three is put together. Only trees of more than 65,536 nodes need the third byte.
#[derive(Drop)]
pub struct Entries {
    form: Form,
}

impl Model for Entries {
    ghost use Rattle.std.specs.Prelude.{List, ℕ};
    ghost use Rattle.decision_tree.specs.EntryForms.{IsKept, numbers_in};

    ghost Value = { List ℕ };

    ghost view = { λ entries. numbers_in entries.form };

    ghost invariant = { λ entries. IsKept entries.form };
}

impl Entries {
    /// Keeps these entries. Takes memory only where they fit in two bytes.
    pub fn of(alloc: Global, entries: Vec<Entry>) -> Result<Entries, AllocError>
        ensures { IfOk result (λ kept. kept ≡ entries.items) }
    {
        let form = if are_narrow(&entries) {
            Form::Narrow(narrowed(alloc, &entries)?)
        } else {
            Form::Wide(entries)
        };
        Ok(Entries { form })
    }
}

// Whether all entries fit in two bytes.
fn are_narrow(entries: &[Entry]) -> bool
    ensures { result ≡ are_narrow entries.now }
{
    entries.iter().all(|entry| entry.number() < 65_536)
}

// The entries in two bytes each.
fn narrowed(alloc: Global, entries: &[Entry]) -> Result<Vec<u16>, AllocError>
    requires { All (λ n. n < narrow_range) entries.now }
    ensures { IfOk result (λ numbers. numbers.items ≡ entries.now) }
{
    let mut numbers = Vec::with_capacity(alloc, entries.len())?;
    for entry in entries {
        numbers.push(entry.number() as u16)?;
    }
    Ok(numbers)
}

/// The state to which these inputs lead from the root, where each node has an entry for each state.
///
/// The inputs come by reference, so that each is read where it is needed: nine at once wouldn't fit
/// into the processor's registers.
pub fn follow(states: u16, root: u32, entries: &Entries, inputs: &[&u8]) -> u8
    requires stores { Stores states (states_at inputs.now) root entries.now }
    requires below { All (λ s. s < states) (states_at inputs.now) }
    ensures { result ≡ follow (nodes_in states (root + 1) entries.now) root
        (states_at inputs.now) }
{
    match &entries.form {
        Form::Narrow(numbers) => follow_narrow(states, root, numbers, inputs),
        Form::Wide(numbers) => follow_wide(states, root, numbers, inputs),
    }
}

// The same among entries of two bytes.
fn follow_narrow(states: u16, root: u32, entries: &[u16], inputs: &[&u8]) -> u8
    requires stores { Stores states (states_at inputs.now) root entries.now }
    requires below { All (λ s. s < states) (states_at inputs.now) }
    ensures { result ≡ follow (nodes_in states (root + 1) entries.now) root
        (states_at inputs.now) }
{
    let width = usize::from(states);
    let mut number = root as usize;
    for input in inputs {
        number = usize::from(entries[number * width + usize::from(**input)]);
    }
    number as u8
}

// The same among entries of three bytes.
fn follow_wide(states: u16, root: u32, entries: &[Entry], inputs: &[&u8]) -> u8
    requires stores { Stores states (states_at inputs.now) root entries.now }
    requires below { All (λ s. s < states) (states_at inputs.now) }
    ensures { result ≡ follow (nodes_in states (root + 1) entries.now) root
        (states_at inputs.now) }
{
    let width = usize::from(states);
    let mut number = root as usize;
    for input in inputs {
        number = entries[number * width + usize::from(**input)].number() as usize;
    }
    number as u8
}

impl PartialEq for Entries {
    ghost use Rattle.std.specs.Str.{bytes_eq};
    ghost use Rattle.std.specs.Cmp.{partial_equiv_from_equiv};
    ghost use Rattle.std.specs.Cmp.Lexicographic.{nat_list_eq_equiv};

    ghost eq = { bytes_eq };

    ghost laws = { partial_equiv_from_equiv nat_list_eq_equiv };

    fn eq(&self, other: &Entries) -> bool {
        match (&self.form, &other.form) {
            (Form::Narrow(numbers), Form::Narrow(others)) => numbers == others,
            (Form::Wide(numbers), Form::Wide(others)) => numbers == others,
            _ => false,
        }
    }
}

impl fmt::Debug for Entries {
    fn fmt<W: fmt::Write>(&self, f: &mut fmt::Formatter<W>) -> fmt::Result {
        match &self.form {
            Form::Narrow(numbers) => fmt::Debug::fmt(numbers, f),
            Form::Wide(numbers) => fmt::Debug::fmt(numbers, f),
        }
    }
}
