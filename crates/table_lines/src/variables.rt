//! The variables of a table, and the lines that define them.
ghost use Rattle.std.specs.Prelude.{◌≡◌, ◌≤◌, ◌<◌, ◌+◌, ◌^◌, OnErr};
ghost use Rattle.std.specs.List.{list_all};
ghost use Rattle.std.specs.Option.{option_copied, option_map};
ghost use Rattle.basics.specs.Results.{Reads};
ghost use Rattle.rule_file.specs.Results.{GivesBy};
ghost use Rattle.rule_file.specs.States.{most_states};
ghost use Rattle.table_lines.specs.Below.{VariablesBelow};
ghost use Rattle.table_lines.specs.Definitions.{member_set, variables_of};
ghost use Rattle.table_lines.specs.Variables.{definition_in, is_variable_byte, is_variable_name, no_variables, set_of, unbraced, variables_after};

use crate::descriptors::Head;
use crate::fields::Fields;
use crate::state_set::StateSet;
use crate::transition::Variable;
use indexmap::IndexMap;
use rule_file::{RuleFault, RuleLine};
use std::alloc::Global;
use text_lines::{find_byte, number, trim};

/// The variables of a table by their names, which stand in the text. Contracts see them by
/// `variables_of`.
#[derive(Debug)]
pub struct Variables<'a> {
    defined: u64,
    by_name: IndexMap<&'a [u8], Variable>,
}

// Written out, as a derived one is proved again at each exit of a function that has one.
impl Drop for Variables<'_> {
    fn drop(self) {
        let Variables {
            defined: _,
            by_name: _,
        } = self;
    }
}

impl<'a> Variables<'a> {
    /// No variables yet.
    pub fn new(alloc: Global) -> Variables<'a>
        ensures { variables_of result ≡ no_variables }
    {
        Variables {
            defined: 0,
            by_name: IndexMap::new(alloc),
        }
    }

    /// The latest variable of this name.
    pub fn named(&self, name: &[u8]) -> Option<Variable>
        ensures { result ≡ (variables_of self.now).named name.now }
    {
        self.by_name.get(name).copied()
    }

    /// Takes the variable that a line defines, in place of an earlier one of its name.
    ///
    /// BadVariable is answered for a line that isn't well formed or names an unknown variable, and
    /// only then StateTooHigh. NoMemory comes only where memory ran out.
    pub fn define(&mut self, head: Head, line: &RuleLine<'a>) -> Result<(), RuleFault>
        requires at_most { head.states ≤ most_states }
        requires below { VariablesBelow head.states (variables_of self.old) }
        requires room { self.old.defined + 1 < 2 ^ 64 }
        ensures read { GivesBy (λ _. variables_of self.new) result
            (variables_after head (variables_of self.old) line.now) }
        ensures count { self.new.defined ≤ self.old.defined + 1 }
        ensures err { OnErr result (variables_of self.new ≡ variables_of self.old) }
    {
        let Some((name, members)) = definition_in(line.text()) else {
            return Err(RuleFault::BadVariable(line.number()));
        };
        let set = self.set_of(head.states, line.number(), members)?;
        let variable = Variable {
            number: self.defined,
            states: set,
        };
        let Ok(_) = self.by_name.insert(name, variable) else {
            return Err(RuleFault::NoMemory);
        };
        self.defined += 1;
        Ok(())
    }

    // The states that the members of a set stand for.
    fn set_of(&self, states: u16, line: u64, mut members: Fields) -> Result<StateSet, RuleFault>
        requires at_most { states ≤ most_states }
        requires below { VariablesBelow states (variables_of self.now) }
        ensures { Reads (λ set. set) result
            (set_of states (variables_of self.now) line members.entry) }
    {
        let mut set = StateSet::empty();
        let mut are_below = true;
        while let Some(member) = members.next() {
            match self.member_set(states, line, member)? {
                Some(more) => set.unite(more),
                None => are_below = false,
            }
        }
        if are_below {
            Ok(set)
        } else {
            Err(RuleFault::StateTooHigh(line))
        }
    }

    // The states that a member stands for, unless it is one that is too high.
    fn member_set(
        &self,
        states: u16,
        line: u64,
        member: &[u8],
    ) -> Result<Option<StateSet>, RuleFault>
        requires at_most { states ≤ most_states }
        requires below { VariablesBelow states (variables_of self.now) }
        ensures { Reads (λ set. set) result
            (member_set states (variables_of self.now) line member.now) }
    {
        match number(member) {
            Some(state) if state < u64::from(states) => Ok(Some(StateSet::of(state as u8))),
            Some(_) => Ok(None),
            None => {
                let Some(variable) = self.named(member) else {
                    return Err(RuleFault::BadVariable(line));
                };
                Ok(Some(variable.states))
            }
        }
    }
}

// The name that a line defines, and the members of its set.
fn definition_in(line: &[u8]) -> Option<(&[u8], Fields)>
    ensures { option_map (λ found. (found.0.now, found.1)) result ≡ definition_in line.now }
{
    let sign = find_byte(line, b'=')?;
    let set = unbraced(trim(&line[sign + 1..]))?;
    // The word `var` stands first.
    let name = trim(line[..sign].get(3..)?);
    if is_variable_name(name) {
        Some((name, Fields::of_parts(set)))
    } else {
        None
    }
}

// What stands between a brace at either end, or the text itself, if it has a brace at neither end.
fn unbraced(text: &[u8]) -> Option<&[u8]>
    ensures { option_copied result ≡ unbraced text.now }
{
    match text {
        [b'{', set @ .., b'}'] => Some(set),
        [b'{', ..] | [.., b'}'] => None,
        _ => Some(text),
    }
}

fn is_variable_name(name: &[u8]) -> bool
    ensures { result ≡ is_variable_name name.now }
{
    if name.is_empty() || number(name).is_some() {
        return false;
    }
    are_variable_bytes(name)
}

fn are_variable_bytes(name: &[u8]) -> bool
    ensures { result ≡ list_all is_variable_byte name.now }
{
    name.iter().all(|b| is_variable_byte(*b))
}

fn is_variable_byte(byte: u8) -> bool
    ensures { result ≡ is_variable_byte byte }
{
    matches!(byte, b'!'..=b'~') && !matches!(byte, b',' | b'{' | b'}' | b'=' | b'#' | b':')
}
