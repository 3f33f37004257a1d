//! Tables that files may have.
ghost use Rattle.std.specs.Prelude.{◌≡◌, ◌↔◌, ◌≤◌, IfOk, IsTrue};
ghost use Rattle.rule_file.specs.States.{least_states, most_states};
ghost use Rattle.table_symmetry.specs.Kept.{IsKeptTable};
ghost use Rattle.table_symmetry.specs.Rows.{AreExpanded};
ghost use Rattle.table_symmetry.specs.Rule.{still_table};

use crate::expansion::{Expanded, expand};
use rule_file::RuleFault;
use std::alloc::{AllocError, Global};
use std::marker::Model;
use table_lines::{Head, Neighborhood, Symmetry, TableLines};

/// A table that a file may have: its lines are within their limits, it has at most 1,000,000
/// expanded transitions, and a cell of state 0 among such cells keeps it.
#[derive(Debug, Drop)]
pub struct SoundTable {
    lines: TableLines,
    alloc: Global,
}

impl Model for SoundTable {
    ghost use Rattle.table_symmetry.specs.Table.{Table};
    ghost use Rattle.table_symmetry.specs.Kept.{IsKeptTable};

    ghost Value = { Table };

    ghost view = { λ table. table.lines };

    ghost invariant = { λ table. IsKeptTable table.lines };
}

impl SoundTable {
    pub(crate) fn new(alloc: Global, lines: TableLines) -> SoundTable
        requires { IsKeptTable lines }
        ensures { result ≡ lines }
    {
        SoundTable { lines, alloc }
    }

    /// The table of two states under which each cell keeps its own.
    pub fn still(alloc: Global) -> SoundTable
        ensures { result ≡ still_table }
    {
        let head = Head {
            states: 2,
            neighborhood: Neighborhood::OneDimensional,
            symmetry: Symmetry::None,
        };
        SoundTable {
            lines: TableLines::of_head(alloc, head),
            alloc,
        }
    }

    /// Which cells are the neighbours of a cell.
    pub fn neighborhood(&self) -> Neighborhood
        ensures { result ≡ self.now.neighborhood }
    {
        self.lines.neighborhood()
    }

    /// How many states there are, from 2 to 256.
    pub fn states(&self) -> u16
        ensures count { result ≡ self.now.states }
        ensures at_least { least_states ≤ result }
        ensures at_most { result ≤ most_states }
    {
        self.lines.states()
    }

    /// The expanded transitions, in order: those of each transition, for each assignment of its
    /// bound variables, each different list of sets that a map of the symmetry gives. They are at
    /// most 1,000,000, and the first that matches gives the next state.
    pub fn expand(&self) -> Result<Vec<Expanded>, AllocError>
        ensures { IfOk result (λ rows. AreExpanded self.now rows.items) }
    {
        match expand(self.alloc, self.lines.symmetry(), self.lines.transitions()) {
            Ok(rows) => Ok(rows),
            Err(RuleFault::NoMemory) => Err(AllocError),
            Err(_) => unreachable!("the transitions are few enough"),
        }
    }

    /// Whether the other table is the same: it has as many states, the same neighbourhood and
    /// symmetry, and the same transitions in the same order. Takes no memory.
    pub fn equals(&self, other: &SoundTable) -> bool
        ensures { IsTrue result ↔ (self.now ≡ other.now) }
    {
        self.lines.equals(&other.lines)
    }
}
