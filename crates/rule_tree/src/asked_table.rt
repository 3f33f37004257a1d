//! Tables with what is asked for their next states.
ghost use Rattle.std.specs.Prelude.{◌≡◌, ◌<◌, ◌+◌, All, IfOk};
ghost use Rattle.std.specs.Option.{option_map};
ghost use Rattle.rule_tree.specs.Asked.{IsTreeFor};
ghost use Rattle.table_symmetry.specs.NextState.{next};
ghost use Rattle.table_symmetry.specs.Rows.{AreExpanded};
ghost use Rattle.tree_translation.specs.NodesNeeded.{NeedsNodes};
ghost use Rattle.tree_translation.specs.Translation.{Translates, node_limit};

use decision_tree::TreeRule;
use plane_core::Around;
use std::alloc::{AllocError, Global};
use std::marker::Model;
use table_symmetry::{Expanded, SoundTable, TableRule};
use tree_translation::{TreeFault, from_rows};

/// A table beside its translation, or with a look-up where that is too large.
#[derive(Debug, Drop)]
pub enum Form {
    Translated(SoundTable, TreeRule),
    LookedUp(TableRule),
}

/// A table that answers next states: by its translation to a tree, unless that is too large.
#[derive(Debug, Drop)]
pub struct AskedTable {
    form: Form,
}

impl Model for AskedTable {
    ghost use Rattle.table_symmetry.specs.Table.{Table};
    ghost use Rattle.rule_tree.specs.Forms.{IsFit, table_in};

    ghost Value = { Table };

    ghost view = { λ asked. table_in asked.form };

    ghost invariant = { λ asked. IsFit asked.form };
}

impl AskedTable {
    /// The table that expands to these rows. They are freed before the nodes of its tree are made,
    /// and listed again where that is too large.
    pub fn new(
        alloc: Global,
        table: SoundTable,
        rows: Vec<Expanded>,
    ) -> Result<AskedTable, AllocError>
        requires { AreExpanded table rows.items }
        ensures { IfOk result (λ asked. asked ≡ table) }
    {
        match from_rows(alloc, &table, rows) {
            Ok(tree) => Ok(AskedTable::translated(table, tree)),
            Err(TreeFault::TreeTooLarge) => AskedTable::looked_up(alloc, table),
            Err(TreeFault::NoMemory) => Err(AllocError),
        }
    }

    fn translated(table: SoundTable, tree: TreeRule) -> AskedTable
        requires { Translates table tree }
        ensures { result ≡ table }
    {
        AskedTable {
            form: Form::Translated(table, tree),
        }
    }

    fn looked_up(alloc: Global, table: SoundTable) -> Result<AskedTable, AllocError>
        requires { NeedsNodes table (node_limit + 1) }
        ensures { IfOk result (λ asked. asked ≡ table) }
    {
        let rows = table.expand()?;
        let rule = TableRule::new(alloc, table, &rows)?;
        Ok(AskedTable {
            form: Form::LookedUp(rule),
        })
    }

    /// The table alone.
    pub fn table(&self) -> &SoundTable
        ensures { result.now ≡ self.now }
    {
        match &self.form {
            Form::Translated(table, _) => table,
            Form::LookedUp(rule) => rule.table(),
        }
    }

    /// The translation, unless it is too large.
    pub fn tree(&self) -> Option<&TreeRule>
        ensures { IsTreeFor self.now (option_map (λ tree. tree.now) result) }
    {
        match &self.form {
            Form::Translated(_, tree) => Some(tree),
            Form::LookedUp(_) => None,
        }
    }

    /// The next state of the cell in the middle. All nine states are below the table's count.
    pub fn next(&self, around: &Around) -> u8
        requires { All (λ s. s < self.now.states) around.now.0 }
        ensures { result ≡ next self.now around.now.0 }
    {
        match &self.form {
            Form::Translated(_, tree) => tree.next(around),
            Form::LookedUp(rule) => rule.next(around),
        }
    }
}
