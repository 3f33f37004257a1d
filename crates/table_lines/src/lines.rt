//! The lines of a table as a value, before its limits are looked at.
ghost use Rattle.std.specs.Prelude.{◌≡◌, ◌↔◌, ◌≤◌, [], Err, IsOk, IsTrue};
ghost use Rattle.std.specs.List.{list_all};
ghost use Rattle.rule_file.specs.Results.{Gives};
ghost use Rattle.rule_file.specs.States.{least_states, most_states};
ghost use Rattle.table_lines.specs.Below.{admits_below};
ghost use Rattle.table_lines.specs.Table.{headed};
ghost use Rattle.table_lines.specs.Lines.{head_in, lines_of};
ghost use Rattle.table_lines.specs.Transitions.{is_full};

use crate::descriptors::{Head, read_head};
use crate::neighborhood::Neighborhood;
use crate::symmetry::Symmetry;
use crate::transition::Transition;
use crate::transitions::read_transitions;
use basics::Listing;
use rule_file::{RuleFault, RuleText};
use std::alloc::Global;
use std::marker::Model;

/// What the lines of a table say: how many states there are, which cells are neighbours, in which
/// arrangements they may stand, and the transitions with the sets of their variables.
#[derive(Debug, Drop)]
pub struct TableLines {
    head: Head,
    transitions: Listing<Transition>,
}

impl Model for TableLines {
    ghost use Rattle.table_lines.specs.Table.{Table, headed};
    ghost use Rattle.table_lines.specs.Read.{IsRead};

    ghost Value = { Table };

    ghost view = { λ lines. headed lines.head lines.transitions };

    ghost invariant = { λ lines. IsRead (headed lines.head lines.transitions) };
}

impl TableLines {
    /// A table of this head without transitions. Takes no memory.
    pub fn of_head(alloc: Global, head: Head) -> TableLines
        requires at_least { least_states ≤ head.states }
        requires at_most { head.states ≤ most_states }
        ensures { result ≡ headed head [] }
    {
        TableLines {
            head,
            transitions: Listing::from_vec(Vec::new(alloc)),
        }
    }

    /// How many states there are.
    pub fn states(&self) -> u16
        ensures value { result ≡ self.now.states }
        ensures at_least { least_states ≤ result }
        ensures at_most { result ≤ most_states }
    {
        self.head.states
    }

    /// Which cells are the neighbours of a cell.
    pub fn neighborhood(&self) -> Neighborhood
        ensures { result ≡ self.now.neighborhood }
    {
        self.head.neighborhood
    }

    /// In which other arrangements of the neighbours a transition matches too.
    pub fn symmetry(&self) -> Symmetry
        ensures { result ≡ self.now.symmetry }
    {
        self.head.symmetry
    }

    /// The transitions in order. Each has an input for the cell and each neighbour, and all states
    /// that it names are below the count of states.
    pub fn transitions(&self) -> &[Transition]
        ensures value { result.now ≡ self.now.transitions }
        ensures below { IsTrue (list_all (admits_below self.now.states) result.now) }
        ensures full { IsTrue (list_all (is_full self.now.neighborhood) result.now) }
    {
        self.transitions.as_slice()
    }

    /// Whether the other table is the same. Takes no memory.
    pub fn equals(&self, other: &TableLines) -> bool
        ensures { IsTrue result ↔ (self.now ≡ other.now) }
    {
        self.head == other.head && self.transitions.as_slice() == other.transitions.as_slice()
    }

    /// Gives the transitions without taking memory.
    pub fn into_transitions(self) -> Vec<Transition>
        ensures { result.items ≡ self.transitions }
    {
        self.transitions.into_vec()
    }
}

/// Reads the lines of a section as those of a table, whatever its limits.
///
/// The descriptors n_states, neighborhood and symmetries stand first, in any order; then each line
/// defines a variable, or is a transition that lists the cell, its neighbours and the result. The
/// first faulty line is answered, by MissingDescriptor, BadStates, BadNeighborhood, BadSymmetry,
/// BadVariable, BadTransition, StateTooHigh or FreeResult. NoMemory comes only where memory was
/// wanted, and never where the descriptors have a fault.
pub fn read_lines(alloc: Global, text: &RuleText) -> Result<TableLines, RuleFault>
    ensures table { Gives result (lines_of text.now.section.lines) }
    ensures no_memory { result ≡ Err RuleFault.NoMemory → IsOk (head_in text.now.section.lines) }
{
    let (head, lines) = read_head(text.lines())?;
    let transitions = read_transitions(alloc, head, lines)?;
    Ok(TableLines {
        head,
        transitions: Listing::from_vec(transitions),
    })
}
