//! Translating a table to a tree.
//!
//! The inputs are fixed one after another. What the table does then depends only on the rows that
//! still may match, in their order, and of these only on what is left of them: equal tails count
//! once. So each different list of tails that can be left gets the number of a node, where equal
//! nodes are shared. It is the subset construction of automata, and the sharing of decision
//! diagrams (Bryant 1986).
ghost use Rattle.std.specs.Prelude.{◌≡◌, ◌≤◌, ◌+◌, length, All, IfErr, IfOk};
ghost use Rattle.tree_translation.specs.declared.tree_fault.TreeFault.TheVariants.{NoMemory, TreeTooLarge};
ghost use Rattle.tree_translation.specs.NodesNeeded.{NeedsNodes};
ghost use Rattle.tree_translation.specs.Numbering.{entries_in};
ghost use Rattle.tree_translation.specs.Starts.{NeedStarts};
ghost use Rattle.worlds.specs.Step.{nine_zeros};
ghost use Rattle.table_symmetry.specs.NextState.{next};
ghost use Rattle.table_symmetry.specs.Rows.{AreExpanded};
ghost use Rattle.tree_translation.specs.Translation.{CanTranslate, DoTable, DoesRows, Translates, neighbors_of, node_limit, order_of, rows_give};

use crate::layers::layers_of;
use crate::listed::Node;
use crate::numbering::{NodeTable, number_of};
use crate::sharing::joined;
use crate::tree_fault::TreeFault;
use decision_tree::{Entries, Neighbors, TreeRule};
use indexmap::IndexSet;
use std::alloc::Global;
use std::collections::HashMap;
use table_symmetry::{Expanded, Neighborhood, SoundTable, TableRule};

/// Translates a table to the smallest tree with the same next states.
///
/// A hexagonal table becomes a tree of eight neighbours and a one-dimensional one a tree of four,
/// which don't look at the neighbours that the table doesn't have. TreeTooLarge comes where even
/// the smallest tree has more than 1,000,000 nodes, NoMemory only where memory ran out.
pub fn from_table(alloc: Global, table: &TableRule) -> Result<TreeRule, TreeFault>
    ensures translates { IfOk result (λ tree. Translates table.now tree) }
    ensures few { IfOk result (λ tree. length tree.nodes ≤ node_limit) }
    ensures smallest { IfOk result (λ tree. NeedsNodes table.now (length tree.nodes)) }
    ensures large { IfErr result (λ fault. fault ≡ TreeTooLarge →
        NeedsNodes table.now (node_limit + 1)) }
{
    let rows = table.expand()?;
    from_rows(alloc, table.table(), rows)
}

/// The same as `from_table`, where the table's expanded transitions are there already. They are
/// freed before the nodes are made.
pub fn from_rows(
    alloc: Global,
    table: &SoundTable,
    rows: Vec<Expanded>,
) -> Result<TreeRule, TreeFault>
    requires { AreExpanded table.now rows.items }
    ensures translates { IfOk result (λ tree. Translates table.now tree) }
    ensures few { IfOk result (λ tree. length tree.nodes ≤ node_limit) }
    ensures smallest { IfOk result (λ tree. NeedsNodes table.now (length tree.nodes)) }
    ensures large { IfErr result (λ fault. fault ≡ TreeTooLarge →
        NeedsNodes table.now (node_limit + 1)) }
{
    let order = order_of(table.neighborhood());
    let nodes = nodes_for(alloc, table.states(), order, rows)?;
    finish(alloc, table, nodes.as_slice())
}

// The nodes for rows, whose inputs are asked in this order. The last is the root.
fn nodes_for(
    alloc: Global,
    states: u16,
    order: &[Option<usize>],
    rows: Vec<Expanded>,
) -> Result<IndexSet<Node>, TreeFault>
    requires { CanTranslate states order.now rows.items }
    ensures does { IfOk result (λ nodes. DoesRows states order.now rows.items
        (entries_in nodes.keys)) }
    ensures few { IfOk result (λ nodes. length nodes.keys ≤ node_limit) }
    ensures width { IfOk result (λ nodes. All
        (λ node. length node ≡ states) (entries_in nodes.keys)) }
    ensures needed { IfOk result (λ nodes. NeedStarts states (length order.now)
        (λ k inputs. rows_give order.now rows.items inputs) 1 (length nodes.keys)) }
    ensures large { IfErr result (λ fault. fault ≡ TreeTooLarge →
        NeedStarts states (length order.now) (λ k inputs. rows_give order.now rows.items inputs) 1
        (node_limit + 1)) }
{
    let (layers, numbers) = layers_of(alloc, order, rows.as_slice())?;
    let mut marks = Vec::from_elem(alloc, false, rows.len())?;
    // a million rows take as much memory as half a million nodes
    drop(rows);
    let mut found = NodeTable {
        numbers: HashMap::new(alloc),
        nodes: IndexSet::new(alloc),
    };
    number_of(
        alloc,
        states,
        &layers,
        0,
        &numbers,
        marks.as_mut_slice(),
        &mut found,
    )?;
    Ok(found.nodes)
}

fn neighbors_of(neighborhood: Neighborhood) -> Neighbors
    ensures { result ≡ neighbors_of neighborhood }
{
    match neighborhood {
        Neighborhood::VonNeumann | Neighborhood::OneDimensional => Neighbors::Four,
        Neighborhood::Moore | Neighborhood::Hexagonal => Neighbors::Eight,
    }
}

// Where the inputs of a tree, from the root down, stand in the rows of a table, if they do.
fn order_of(neighborhood: Neighborhood) -> &'static [Option<usize>]
    ensures { result.now ≡ order_of neighborhood }
{
    match neighborhood {
        Neighborhood::VonNeumann => &[Some(1), Some(4), Some(2), Some(3), Some(0)],
        Neighborhood::Moore => &[
            Some(8),
            Some(2),
            Some(6),
            Some(4),
            Some(1),
            Some(7),
            Some(3),
            Some(5),
            Some(0),
        ],
        Neighborhood::Hexagonal => &[
            Some(6),
            None,
            None,
            Some(3),
            Some(1),
            Some(5),
            Some(2),
            Some(4),
            Some(0),
        ],
        Neighborhood::OneDimensional => &[None, Some(1), Some(2), None, Some(0)],
    }
}

// The tree of these nodes, of which the last is the root.
fn finish(alloc: Global, table: &SoundTable, nodes: &[Node]) -> Result<TreeRule, TreeFault>
    requires few { length nodes.now ≤ node_limit }
    requires does { DoTable table.now (entries_in nodes.now) }
    requires quiet { next table.now nine_zeros ≡ 0 }
    ensures translates { IfOk result (λ tree. Translates table.now tree) }
    ensures nodes { IfOk result (λ tree. length tree.nodes ≡ length nodes.now) }
    ensures memory { IfErr result (λ fault. fault ≡ NoMemory) }
{
    let entries = Entries::of(alloc, joined(alloc, table.states(), nodes)?)?;
    Ok(TreeRule::new(
        table.states(),
        neighbors_of(table.neighborhood()),
        (nodes.len() - 1) as u32,
        entries,
    ))
}
