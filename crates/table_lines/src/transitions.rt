//! The lines after the head of a table: variables and transitions.
ghost use Rattle.std.specs.Prelude.{◌≡◌, ◌≤◌, ◌<◌, ◌+◌, length, IfOk};
ghost use Rattle.rule_file.specs.Results.{Gives, GivesBy};
ghost use Rattle.rule_file.specs.States.{most_states};
ghost use Rattle.table_lines.specs.Definitions.{variables_of};
ghost use Rattle.table_lines.specs.Entries.{TakesOne, TakesSome};
ghost use Rattle.table_lines.specs.Neighborhood.{places_of};
ghost use Rattle.table_lines.specs.Transitions.{entry_of, is_free, transition_of, transitions_of, unless_free};
ghost use Rattle.table_lines.specs.Variables.{defines_variable, no_variables};

use crate::descriptors::{Head, descriptor_of};
use crate::fields::{Fields, entry_count};
use crate::transition::{Entry, Transition};
use crate::variables::Variables;
use basics::Listing;
use rule_file::{RuleFault, RuleLine};
use std::alloc::Global;
use text_lines::{is_blank, number};

/// Reads the lines after the head as those of variables and transitions.
///
/// The first faulty line is answered: BadVariable or StateTooHigh for one that defines a variable,
/// and BadTransition, StateTooHigh or FreeResult for any other. NoMemory comes only where memory
/// was wanted.
pub fn read_transitions(
    alloc: Global,
    head: Head,
    lines: &[RuleLine],
) -> Result<Vec<Transition>, RuleFault>
    requires { head.states ≤ most_states }
    ensures { GivesBy (λ ts. ts.items) result (transitions_of head no_variables lines.now) }
{
    let mut variables = Variables::new(alloc);
    let mut transitions = Vec::new(alloc);
    for line in lines {
        if descriptor_of(line.text()).is_some() {
            return Err(RuleFault::BadTransition(line.number()));
        }
        if defines_variable(line.text()) {
            variables.define(head, line)?;
            continue;
        }
        transitions.push(read_transition(alloc, head, &variables, line)?)?;
    }
    Ok(transitions)
}

// Whether the line begins with `var` and a blank.
fn defines_variable(line: &[u8]) -> bool
    ensures { result ≡ defines_variable line.now }
{
    match line {
        [b'v', b'a', b'r', blank, ..] => is_blank(*blank),
        _ => false,
    }
}

// The transition that a line says: an entry for the cell, one for each neighbour, and the result.
fn read_transition(
    alloc: Global,
    head: Head,
    variables: &Variables,
    line: &RuleLine,
) -> Result<Transition, RuleFault>
    requires { head.states ≤ most_states }
    ensures { Gives result (transition_of head (variables_of variables.now) line.now) }
{
    if entry_count(head.states, line.text()) != head.neighborhood.count() + 2 {
        return Err(RuleFault::BadTransition(line.number()));
    }
    let mut fields = Fields::of_entries(head.states, line.text());
    let inputs = take_inputs(alloc, head, variables, line.number(), &mut fields)?;
    let given = take_entry(head, variables, line.number(), &mut fields)?;
    let transition = Transition {
        inputs: Listing::from_vec(inputs),
        result: given,
    };
    unless_free(line.number(), transition)
}

// Takes the entries of the cell and its neighbours, in no more memory than they need.
fn take_inputs(
    alloc: Global,
    head: Head,
    variables: &Variables,
    line: u64,
    fields: &mut Fields,
) -> Result<Vec<Entry>, RuleFault>
    requires enough { length fields.old ≡ length (places_of head.neighborhood) + 2 }
    requires at_most { head.states ≤ most_states }
    ensures read { TakesSome (λ entries. entries.items) result
        (entry_of head.states (variables_of variables.now) line) fields.old fields.new }
    ensures left { IfOk result (λ entries. length fields.new ≡ 1) }
{
    let count = head.neighborhood.count() + 1;
    let mut entries = Vec::with_capacity(alloc, count)?;
    for _ in 0..count {
        entries.push(take_entry(head, variables, line, fields)?)?;
    }
    Ok(entries)
}

// Takes the next entry.
fn take_entry(
    head: Head,
    variables: &Variables,
    line: u64,
    fields: &mut Fields,
) -> Result<Entry, RuleFault>
    requires enough { 0 < length fields.old }
    requires at_most { head.states ≤ most_states }
    ensures { TakesOne result
        (entry_of head.states (variables_of variables.now) line) fields.old fields.new }
{
    read_entry(head.states, variables, line, fields.next().unwrap())
}

// The entry that a field is.
fn read_entry(
    states: u16,
    variables: &Variables,
    line: u64,
    field: &[u8],
) -> Result<Entry, RuleFault>
    requires { states ≤ most_states }
    ensures { result ≡ entry_of states (variables_of variables.now) line field.now }
{
    match number(field) {
        Some(state) if state < u64::from(states) => Ok(Entry::State(state as u8)),
        Some(_) => Err(RuleFault::StateTooHigh(line)),
        None => match variables.named(field) {
            Some(variable) => Ok(Entry::OneOf(variable)),
            None => Err(RuleFault::BadTransition(line)),
        },
    }
}

// The transition, unless its result is free.
fn unless_free(line: u64, transition: Transition) -> Result<Transition, RuleFault>
    ensures { result ≡ unless_free line transition }
{
    if is_free(transition.inputs.as_slice(), transition.result) {
        return Err(RuleFault::FreeResult(line));
    }
    Ok(transition)
}

// Whether what is given is a variable that stands in no input.
fn is_free(inputs: &[Entry], given: Entry) -> bool
    ensures { result ≡ is_free inputs.now given }
{
    match given {
        Entry::State(_) => false,
        Entry::OneOf(variable) => !variable.stands_among(inputs),
    }
}
