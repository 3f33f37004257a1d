//! Rules that are given by a table.
ghost use Rattle.std.specs.Prelude.{◌≡◌, ◌<◌, ◌≤◌, All, IfOk};
ghost use Rattle.rule_file.specs.States.{least_states, most_states};
ghost use Rattle.table_symmetry.specs.NextState.{next};
ghost use Rattle.table_symmetry.specs.Rows.{AreExpanded};
ghost use Rattle.table_symmetry.specs.Rule.{still_table};

use crate::expansion::Expanded;
use crate::lookup::Lookup;
use crate::sound_table::SoundTable;
use plane_core::Around;
use std::alloc::{AllocError, Global};
use std::marker::Model;
use table_lines::Neighborhood;

/// A rule that is given by a table: the first transition that matches a cell and its neighbours
/// gives the next state, and where none does the cell keeps its own.
#[derive(Debug, Drop)]
pub struct TableRule {
    table: SoundTable,
    lookup: Lookup,
}

impl Model for TableRule {
    ghost use Rattle.table_symmetry.specs.Table.{Table};
    ghost use Rattle.table_symmetry.specs.Kept.{LooksUp};

    ghost Value = { Table };

    ghost view = { λ rule. rule.table };

    ghost invariant = { λ rule. LooksUp rule.table rule.lookup };
}

impl TableRule {
    /// The rule of a table that expands to these rows.
    pub fn new(alloc: Global, table: SoundTable, rows: &[Expanded]) -> Result<TableRule, AllocError>
        requires { AreExpanded table rows.now }
        ensures { IfOk result (λ rule. rule ≡ table) }
    {
        let lookup = Lookup::new(alloc, table.states(), table.neighborhood(), rows)?;
        Ok(TableRule { table, lookup })
    }

    /// The rule of two states under which each cell keeps its own.
    pub fn still(alloc: Global) -> TableRule
        ensures { result ≡ still_table }
    {
        TableRule {
            table: SoundTable::still(alloc),
            lookup: Lookup::empty(alloc, Neighborhood::OneDimensional),
        }
    }

    /// The table that is looked up.
    pub fn table(&self) -> &SoundTable
        ensures { result.now ≡ self.now }
    {
        &self.table
    }

    /// The expanded transitions of the table.
    pub fn expand(&self) -> Result<Vec<Expanded>, AllocError>
        ensures { IfOk result (λ rows. AreExpanded self.now rows.items) }
    {
        self.table.expand()
    }

    /// How many states there are, from 2 to 256.
    pub fn states(&self) -> u16
        ensures count { result ≡ self.now.states }
        ensures at_least { least_states ≤ result }
        ensures at_most { result ≤ most_states }
    {
        self.table.states()
    }

    /// The next state of the cell in the middle. All nine states are below `states`.
    pub fn next(&self, around: &Around) -> u8
        requires { All (λ s. s < self.now.states) around.now.0 }
        ensures { result ≡ next self.now around.now.0 }
    {
        self.lookup.find(around).unwrap_or(around.0[0])
    }
}
