//! The descriptors of a table: how many states, which neighbourhood, which symmetries.
ghost use Rattle.std.specs.Prelude.{◌≡◌, IfOk};
ghost use Rattle.basics.specs.Results.{Reads};
ghost use Rattle.std.specs.Option.{option_map};
ghost use Rattle.rule_file.specs.States.{MayHaveStates};
ghost use Rattle.table_lines.specs.Descriptors.{descriptor_named, descriptor_of, head_from, head_of, fitting, describe, undescribed};

use crate::neighborhood::Neighborhood;
use crate::symmetry::Symmetry;
use rule_file::{RuleFault, RuleLine, states_in};
use std::marker::Model;
use text_lines::named_value;

/// What a descriptor describes.
#[derive(Clone, Copy, Debug, PartialEq, Eq)]
pub enum Descriptor {
    States,
    Neighborhood,
    Symmetries,
}

/// What a table has beside its transitions.
#[derive(Clone, Copy, Debug, PartialEq, Eq)]
pub struct Head {
    pub states: u16,
    pub neighborhood: Neighborhood,
    pub symmetry: Symmetry,
}

/// A descriptor and its value, if the line is one.
pub fn descriptor_of(line: &[u8]) -> Option<(Descriptor, &[u8])>
    ensures { option_map (λ found. (found.0, found.1.now)) result ≡ descriptor_of line.now }
{
    let (name, value) = named_value(line, b':')?;
    Some((descriptor_named(name)?, value))
}

fn descriptor_named(word: &[u8]) -> Option<Descriptor>
    ensures { result ≡ descriptor_named word.now }
{
    if word == b"n_states".as_slice() {
        Some(Descriptor::States)
    } else if word == b"neighborhood".as_slice() {
        Some(Descriptor::Neighborhood)
    } else if word == b"symmetries".as_slice() {
        Some(Descriptor::Symmetries)
    } else {
        None
    }
}

/// What the descriptors said so far. The symmetry is a name until the neighbourhood is known.
#[derive(Debug, Drop)]
pub struct Described<'a> {
    states: Option<u16>,
    neighborhood: Option<Neighborhood>,
    symmetry: Option<&'a [u8]>,
}

impl<'a> Model for Described<'a> {
    ghost use Rattle.std.specs.Prelude.{IfSome};
    ghost use Rattle.std.specs.Option.{option_copied};
    ghost use Rattle.rule_file.specs.States.{MayHaveStates};
    ghost use Rattle.table_lines.specs.Descriptors.{Described};

    ghost Value = { Described };

    ghost view = { λ d. record {
      states = d.states;
      neighborhood = d.neighborhood;
      symmetry = option_copied d.symmetry;
    } };

    ghost invariant = { λ d. IfSome d.states MayHaveStates };
}

impl<'a> Described<'a> {
    /// Nothing yet.
    pub fn new() -> Described<'a>
        ensures { result ≡ undescribed }
    {
        Described {
            states: None,
            neighborhood: None,
            symmetry: None,
        }
    }

    /// Takes one more descriptor, of this line.
    pub fn describe(
        &mut self,
        line: u64,
        descriptor: Descriptor,
        value: &'a [u8],
    ) -> Result<(), RuleFault>
        ensures { Reads (λ _. self.new) result (describe self.old line descriptor value.now) }
    {
        match descriptor {
            Descriptor::States => self.describe_states(line, value),
            Descriptor::Neighborhood => self.describe_neighborhood(line, value),
            Descriptor::Symmetries => self.describe_symmetries(line, value),
        }
    }

    fn describe_states(&mut self, line: u64, value: &[u8]) -> Result<(), RuleFault>
        ensures { Reads (λ _. self.new) result
            (describe self.old line Descriptor.States value.now) }
    {
        if self.states.is_some() {
            return Err(RuleFault::BadTransition(line));
        }
        let states = states_in(value).ok_or(RuleFault::BadStates)?;
        self.states = Some(states);
        Ok(())
    }

    fn describe_neighborhood(&mut self, line: u64, value: &[u8]) -> Result<(), RuleFault>
        ensures { Reads (λ _. self.new) result
            (describe self.old line Descriptor.Neighborhood value.now) }
    {
        if self.neighborhood.is_some() {
            return Err(RuleFault::BadTransition(line));
        }
        let neighborhood = Neighborhood::named(value).ok_or(RuleFault::BadNeighborhood)?;
        self.neighborhood = Some(neighborhood);
        self.check_fitting()
    }

    fn describe_symmetries(&mut self, line: u64, value: &'a [u8]) -> Result<(), RuleFault>
        ensures { Reads (λ _. self.new) result
            (describe self.old line Descriptor.Symmetries value.now) }
    {
        if self.symmetry.is_some() {
            return Err(RuleFault::BadTransition(line));
        }
        self.symmetry = Some(value);
        self.check_fitting()
    }

    // Refuses a symmetry that the neighbourhood doesn't have, where both are there.
    fn check_fitting(&self) -> Result<(), RuleFault>
        ensures { Reads (λ _. self.now) result (fitting self.now) }
    {
        if let Some(neighborhood) = self.neighborhood
            && let Some(name) = self.symmetry
            && Symmetry::named(neighborhood, name).is_none()
        {
            return Err(RuleFault::BadSymmetry);
        }
        Ok(())
    }

    /// The head of the table, if all three descriptors were there.
    pub fn head(&self) -> Result<Head, RuleFault>
        ensures head { result ≡ head_of self.now }
        ensures states { IfOk result (λ head. MayHaveStates head.states) }
    {
        let states = self.states.ok_or(RuleFault::MissingDescriptor)?;
        let neighborhood = self.neighborhood.ok_or(RuleFault::MissingDescriptor)?;
        let name = self.symmetry.ok_or(RuleFault::MissingDescriptor)?;
        let symmetry = Symmetry::named(neighborhood, name).ok_or(RuleFault::BadSymmetry)?;
        Ok(Head {
            states,
            neighborhood,
            symmetry,
        })
    }
}

/// The head that the first lines describe, up to one that is no descriptor, and the lines from
/// there on.
pub fn read_head<'a>(lines: &'a [RuleLine<'a>]) -> Result<(Head, &'a [RuleLine<'a>]), RuleFault>
    ensures head { Reads (λ found. (found.0, found.1.now)) result
        (head_from undescribed lines.now) }
    ensures states { IfOk result (λ found. MayHaveStates found.0.states) }
{
    let mut described = Described::new();
    let mut left = lines;
    while let [line, later @ ..] = left
        && let Some((descriptor, value)) = descriptor_of(line.text())
    {
        described.describe(line.number(), descriptor, value)?;
        left = later;
    }
    Ok((described.head()?, left))
}
