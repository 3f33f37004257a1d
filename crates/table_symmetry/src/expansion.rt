//! Expanded transitions, in which no variables and no symmetry are left.
//!
//! A transition is expanded by its assignments, which replace the bound variables in turn by their
//! values, and each of these by the maps of the symmetry. The cost is in proportion to what is
//! expanded, and to the arrangements that are looked at (see `arrangement`).
ghost use Rattle.std.specs.Prelude.{◌≡◌, ◌≤◌, ◌++◌, ◌∷◌, length, map, IfOk, OnOk, MatchResult};
ghost use Rattle.std.specs.List.{flat_map};
ghost use Rattle.table_symmetry.specs.Expanded.{expanded_of, expanded_one, transition_limit};
ghost use Rattle.table_symmetry.specs.Grown.{ExpandTo, GrowsRows, IsTooLong, lists_in, row_of};
ghost use Rattle.table_symmetry.specs.NextState as meaning;

use crate::arrangement::{arrangements, joined};
use basics::Listing;
use rule_file::RuleFault;
use std::alloc::{AllocError, Global};
use table_lines::{Entry, StateSet, Symmetry, Transition, Variable};

/// The most expanded transitions that a table may have.
const TRANSITION_LIMIT: usize = 1_000_000;

/// An expanded transition: the states that the cell and each of its neighbours may have, in the
/// order of the table's lines, and what the cell becomes then.
#[derive(Debug, Drop)]
pub struct Expanded {
    pub inputs: Listing<StateSet>,
    pub result: u8,
}

/// The expanded transitions of some transitions, in order.
///
/// TooManyTransitions comes where they are more than 1,000,000, NoMemory only where memory was
/// wanted.
pub fn expand(
    alloc: Global,
    symmetry: Symmetry,
    transitions: &[Transition],
) -> Result<Vec<Expanded>, RuleFault>
    ensures { MatchResult result
        (λ rows. ExpandTo symmetry transitions.now rows.items)
        (λ fault. IsTooLong fault (length (flat_map (expanded_of symmetry) transitions.now))) }
{
    let mut rows = Vec::new(alloc);
    for transition in transitions {
        let bound = bound_in(alloc, transition)?;
        push_assigned(alloc, &mut rows, symmetry, &bound, transition)?;
    }
    Ok(rows)
}

// Adds the expanded transitions of a transition under all assignments of these variables.
fn push_assigned(
    alloc: Global,
    rows: &mut Vec<Expanded>,
    symmetry: Symmetry,
    bound: &[Variable],
    transition: &Transition,
) -> Result<(), RuleFault>
    requires { length rows.old.items ≤ transition_limit }
    ensures { GrowsRows result rows.old.items rows.new.items
        (flat_map (expanded_one symmetry) (meaning.assigned bound.now transition.now)) }
{
    match bound.split_first() {
        None => push_one(alloc, rows, symmetry, transition),
        Some((variable, others)) => {
            let states = variable.states.to_vec(alloc)?;
            for state in &states {
                let valued = valued(alloc, variable, *state, transition)?;
                push_assigned(alloc, rows, symmetry, others, &valued)?;
            }
            Ok(())
        }
    }
}

// Adds those of a transition that has no bound variables.
fn push_one(
    alloc: Global,
    rows: &mut Vec<Expanded>,
    symmetry: Symmetry,
    transition: &Transition,
) -> Result<(), RuleFault>
    requires { length rows.old.items ≤ transition_limit }
    ensures { GrowsRows result rows.old.items rows.new.items (expanded_one symmetry transition.now) }
{
    let sets = sets_of(alloc, transition.inputs.as_slice())?;
    let (centre, circle) = sets.split_at(sets.len().min(1));
    let lists = arrangements(alloc, symmetry, circle)?;
    if TRANSITION_LIMIT - rows.len() < lists.len() {
        return Err(RuleFault::TooManyTransitions);
    }
    push_lists(alloc, rows, centre, &lists, given(&transition.result))?;
    Ok(())
}

// Adds an expanded transition for each list of the neighbours' sets.
fn push_lists(
    alloc: Global,
    rows: &mut Vec<Expanded>,
    centre: &[StateSet],
    lists: &[Vec<StateSet>],
    given: u8,
) -> Result<(), AllocError>
    ensures { OnOk result (rows.new.items
        ≡ rows.old.items ++ map (row_of centre.now given) (lists_in lists.now)) }
{
    for list in lists {
        let inputs = joined(alloc, centre, list)?;
        rows.push(Expanded {
            inputs: Listing::from_vec(inputs),
            result: given,
        })?;
    }
    Ok(())
}

// The states that each entry admits.
fn sets_of(alloc: Global, entries: &[Entry]) -> Result<Vec<StateSet>, AllocError>
    ensures { IfOk result (λ sets. sets.items ≡ map meaning.admitted entries.now) }
{
    entries.iter().map(|entry| admitted(entry)).collect(alloc)
}

fn admitted(entry: &Entry) -> StateSet
    ensures { result ≡ meaning.admitted entry.now }
{
    match entry {
        Entry::State(state) => StateSet::of(*state),
        Entry::OneOf(variable) => variable.states,
    }
}

// The state that an entry gives.
fn given(entry: &Entry) -> u8
    ensures { result ≡ meaning.given entry.now }
{
    match entry {
        Entry::State(state) => *state,
        Entry::OneOf(_) => 0,
    }
}

// The transition where the variable has this value throughout.
fn valued(
    alloc: Global,
    variable: &Variable,
    state: u8,
    transition: &Transition,
) -> Result<Transition, AllocError>
    ensures { IfOk result (λ t. t ≡ meaning.valued variable.now state transition.now) }
{
    let mut inputs = Vec::with_capacity(alloc, transition.inputs.as_slice().len())?;
    for entry in transition.inputs.as_slice() {
        inputs.push(valued_entry(variable, state, entry))?;
    }
    Ok(Transition {
        inputs: Listing::from_vec(inputs),
        result: valued_entry(variable, state, &transition.result),
    })
}

fn valued_entry(variable: &Variable, state: u8, entry: &Entry) -> Entry
    ensures { result ≡ meaning.valued_entry variable.now state entry.now }
{
    if variable.stands_at(entry) {
        Entry::State(state)
    } else {
        *entry
    }
}

// The bound variables of a transition, in order of first appearance.
fn bound_in(alloc: Global, transition: &Transition) -> Result<Vec<Variable>, AllocError>
    ensures { IfOk result (λ variables. variables.items ≡ meaning.bound_in transition.now) }
{
    let mut entries = transition.inputs.as_slice().to_vec(alloc)?;
    entries.push(transition.result)?;
    bound_variables(alloc, &entries)
}

// The variables that stand more than once among the entries, in order of first appearance.
fn bound_variables(alloc: Global, entries: &[Entry]) -> Result<Vec<Variable>, AllocError>
    ensures { IfOk result (λ variables. variables.items ≡ meaning.bound_variables entries.now) }
{
    match entries {
        [] => Ok(Vec::new(alloc)),
        [entry, later @ ..] => {
            let variables = bound_variables(alloc, later)?;
            with_entry(alloc, entry, later, variables)
        }
    }
}

// The bound variables of an entry and those after it, by those of the latter.
fn with_entry(
    alloc: Global,
    entry: &Entry,
    later: &[Entry],
    variables: Vec<Variable>,
) -> Result<Vec<Variable>, AllocError>
    requires { variables.items ≡ meaning.bound_variables later.now }
    ensures { IfOk result (λ bound. bound.items ≡ meaning.bound_variables (entry.now ∷ later.now)) }
{
    match entry {
        Entry::State(_) => Ok(variables),
        Entry::OneOf(variable) => {
            if !variable.stands_among(later) {
                return Ok(variables);
            }
            with_first(alloc, variable, &variables)
        }
    }
}

// The variable, and the others among these.
fn with_first(
    alloc: Global,
    variable: &Variable,
    variables: &[Variable],
) -> Result<Vec<Variable>, AllocError>
    ensures { IfOk result (λ all.
        all.items ≡ variable.now ∷ meaning.without variable.now variables.now) }
{
    let mut all = without(alloc, variable, variables)?;
    all.insert(0, *variable)?;
    Ok(all)
}

fn without(
    alloc: Global,
    variable: &Variable,
    variables: &[Variable],
) -> Result<Vec<Variable>, AllocError>
    ensures { IfOk result (λ others. others.items ≡ meaning.without variable.now variables.now) }
{
    variables
        .iter()
        .filter(|other| variable.number != other.number)
        .copied()
        .collect(alloc)
}
