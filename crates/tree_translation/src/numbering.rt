//! Numbering the lists of tails that may be left, depth first.
//!
//! What a list does from an input on, one node does. Its entries are the numbers of what is left
//! behind each state, which are found first, and equal nodes are made once. So each node that was
//! made is needed, and too many of them are seen as soon as they are there. It costs for each
//! different list one pass over its tails for each 64 states, and one over those that matter to the
//! 64 for each run of states that they treat alike.
ghost use Rattle.std.specs.Prelude.{◌-◌, replicate, ◌≡◌, ◌≤◌, ◌<◌, ◌+◌, ◌∷◌, ◌++◌, [], length, slice_index, slice_index_or, unwrap_or, ℕ, List, false, All, IfErr, IfOk, IfSome, OnOk, Some, None, if◌then◌else◌};
ghost use Rattle.rule_file.specs.States.{most_states};
ghost use Rattle.tree_translation.specs.declared.tree_fault.TreeFault.TheVariants.{TreeTooLarge};
ghost use Rattle.tree_translation.specs.Layers.{IsLayer, lets, rest_at};
ghost use Rattle.tree_translation.specs.Numbering.{AreEntries, CanNumber, GrowsNodes, IsNumberOf, NeedsTooMany, entries_in};
ghost use Rattle.tree_translation.specs.TailsFound.{AreMarked, AreTailsFound};
ghost use Rattle.tree_translation.specs.Translation.{AreLeaves, LeftOf, first_some};

use crate::layers::Layer;
use crate::listed::{Listed, Node};
use crate::near::{states_alike, tails_near};
use crate::packed::Packed;
use crate::sharing::add_node;
use crate::tree_fault::TreeFault;
use indexmap::IndexSet;
use std::alloc::{AllocError, Global};
use std::collections::HashMap;

/// The nodes that were made, and the number of the node for each list that was looked at.
#[derive(Debug, Drop)]
pub struct NodeTable {
    pub numbers: HashMap<Listed, u32>,
    pub nodes: IndexSet<Node>,
}

/// What was left behind a state, and its number.
#[derive(Debug, Drop)]
struct Latest {
    list: Vec<u32>,
    number: u32,
}

/// The number of the node that does what these tails do from an input on, which is made where it
/// isn't there. `marks` has a false for each tail of any layer, and has them again at the end.
#[cycle(numbering)]
pub fn number_of(
    alloc: Global,
    states: u16,
    layers: &[Layer],
    input: usize,
    list: &[u32],
    marks: &mut [bool],
    found: &mut NodeTable,
) -> Result<u32, TreeFault>
    requires { CanNumber states layers.now input list.now marks.old found.old }
    ensures number { IfOk result
        (λ n. IsNumberOf states layers.now found.new.nodes.keys input list.now n) }
    ensures grows { OnOk result (GrowsNodes states layers.now input input list.now found.old found.new) }
    ensures last { IfOk result (λ n. All (λ node. input < node.input) found.old.nodes.keys →
        n + 1 ≡ length found.new.nodes.keys) }
    ensures clear { OnOk result (All (λ b. b ≡ false) marks.new) }
    ensures large { IfErr result (λ fault. fault ≡ TreeTooLarge →
        NeedsTooMany states layers.now input list.now found.old) }
{
    let key = Listed {
        input,
        numbers: list.to_vec(alloc)?,
    };
    if let Some(number) = found.numbers.get(&key) {
        return Ok(*number);
    }
    let entries = entries_of(alloc, states, layers, input, list, marks, found)?;
    let node = Node {
        input,
        entries: Packed::of(alloc, &entries)?,
    };
    let number = add_node(&mut found.nodes, node)?;
    found.numbers.insert(key, number)?;
    Ok(number)
}

// The entries of the node that does what these tails do from an input on.
#[cycle(numbering)]
fn entries_of(
    alloc: Global,
    states: u16,
    layers: &[Layer],
    input: usize,
    list: &[u32],
    marks: &mut [bool],
    found: &mut NodeTable,
) -> Result<Vec<u32>, TreeFault>
    requires { CanNumber states layers.now input list.now marks.old found.old }
    ensures entries { IfOk result
        (λ entries.
        AreEntries states layers.now found.new.nodes.keys input list.now entries.items) }
    ensures grows { OnOk result (GrowsNodes states layers.now input
        (input + 1) list.now found.old found.new) }
    ensures clear { OnOk result (All (λ b. b ≡ false) marks.new) }
    ensures large { IfErr result (λ fault. fault ≡ TreeTooLarge →
        NeedsTooMany states layers.now input list.now found.old) }
{
    let layer = &layers[input];
    if input + 1 == layers.len() {
        return Ok(leaf_of(alloc, states, layer, list)?);
    }
    let mut entries = Vec::with_capacity(alloc, usize::from(states))?;
    let mut latest: Option<Latest> = None;
    let mut near = Vec::new(alloc);
    let mut state = 0;
    while state < states {
        near = tails_near(alloc, layer, state as u8, list, near)?;
        let alike = states_alike(layer, state as u8, &near).min(states - state);
        let left = tails_left(alloc, layer, state as u8, &near, marks)?;
        let number = number_again(
            alloc,
            states,
            layers,
            input + 1,
            &left,
            latest.as_ref(),
            marks,
            found,
        )?;
        state += alike;
        fill_up(&mut entries, state, number)?;
        latest = Some(Latest { list: left, number });
    }
    Ok(entries)
}

// The same as `number_of` of the tails that are left behind a state. They are likely to be those
// that were left behind the state before it.
#[cycle(numbering)]
fn number_again(
    alloc: Global,
    states: u16,
    layers: &[Layer],
    input: usize,
    list: &[u32],
    latest: Option<&Latest>,
    marks: &mut [bool],
    found: &mut NodeTable,
) -> Result<u32, TreeFault>
    requires ready { CanNumber states layers.now input list.now marks.old found.old }
    requires latest { IfSome latest
        (λ l.
        IsNumberOf states layers.now found.old.nodes.keys input l.now.list.items l.now.number) }
    ensures number { IfOk result
        (λ n. IsNumberOf states layers.now found.new.nodes.keys input list.now n) }
    ensures grows { OnOk result (GrowsNodes states layers.now input input list.now found.old found.new) }
    ensures clear { OnOk result (All (λ b. b ≡ false) marks.new) }
    ensures large { IfErr result (λ fault. fault ≡ TreeTooLarge →
        NeedsTooMany states layers.now input list.now found.old) }
{
    if let Some(latest) = latest
        && latest.list.as_slice() == list
    {
        return Ok(latest.number);
    }
    number_of(alloc, states, layers, input, list, marks, found)
}

// Fills the entries up to this count with a number.
fn fill_up(entries: &mut Vec<u32>, count: u16, number: u32) -> Result<(), AllocError>
    requires { length entries.old.items ≤ count }
    ensures { OnOk result (entries.new.items
        ≡ entries.old.items ++ replicate (count - length entries.old.items) number) }
{
    entries.resize(usize::from(count), number)
}

// For each state of the last input the first result that is left, or the state.
fn leaf_of(alloc: Global, states: u16, layer: &Layer, list: &[u32]) -> Result<Vec<u32>, AllocError>
    requires at_most { states ≤ most_states }
    requires layer { IsLayer layer.now states }
    requires inside { All (λ n. n < length layer.now.tails.items) list.now }
    ensures { IfOk result (λ leaf. AreLeaves states layer.now list.now leaf.items) }
{
    let mut leaf = Vec::with_capacity(alloc, usize::from(states))?;
    for state in 0..states {
        leaf.push(first_result(layer, state as u8, list))?;
    }
    Ok(leaf)
}

// The first result that is left of these tails behind the last input, or the input.
fn first_result(layer: &Layer, state: u8, list: &[u32]) -> u32
    requires sets { All (λ tail. tail.set < length layer.now.sets.items) layer.now.tails.items }
    requires inside { All (λ n. n < length layer.now.tails.items) list.now }
    ensures { result ≡ unwrap_or (first_some (λ number. if lets layer.now number state then Some
        (rest_at layer.now number) else None) list.now) state }
{
    for number in list {
        if layer.lets(*number, state) {
            return layer.tails[*number as usize].rest;
        }
    }
    u32::from(state)
}

// What is left of these tails behind an input of this state, each once. `is_there` has a false for
// each tail of the next layer, and has them again at the end.
fn tails_left(
    alloc: Global,
    layer: &Layer,
    state: u8,
    list: &[u32],
    is_there: &mut [bool],
) -> Result<Vec<u32>, AllocError>
    requires layer { IsLayer layer.now (length is_there.old) }
    requires inside { All (λ n. n < length layer.now.tails.items) list.now }
    requires clear { All (λ b. b ≡ false) is_there.old }
    ensures left { IfOk result (λ left. LeftOf layer.now state list.now left.items) }
    ensures inside { IfOk result (λ left. (count : ℕ) → IsLayer layer.now count → All
        (λ n. n < count) left.items) }
    ensures clear { OnOk result (All (λ b. b ≡ false) is_there.new) }
{
    let mut found = Vec::new(alloc);
    for number in list {
        add_rest(layer, state, *number, is_there, &mut found)?;
    }
    unmark(is_there, &found);
    Ok(found)
}

// Adds what is left of one more tail behind an input of this state, where it isn't there already.
fn add_rest(
    layer: &Layer,
    state: u8,
    number: u32,
    is_there: &mut [bool],
    found: &mut Vec<u32>,
) -> Result<(), AllocError>
    requires layer { IsLayer layer.now (length is_there.old) }
    requires inside { number < length layer.now.tails.items }
    ensures { OnOk result ((passed : List ℕ) →
        AreTailsFound layer.now state passed is_there.old found.old.items →
        AreTailsFound layer.now state (passed ++ number ∷ []) is_there.new found.new.items) }
{
    if !layer.lets(number, state) {
        return Ok(());
    }
    let rest = layer.tails[number as usize].rest;
    if is_there[rest as usize] {
        return Ok(());
    }
    is_there[rest as usize] = true;
    found.push(rest)?;
    Ok(())
}

// Takes away the marks of these.
fn unmark(is_there: &mut [bool], found: &[u32])
    requires { AreMarked is_there.old found.now }
    ensures { All (λ b. b ≡ false) is_there.new }
{
    for rest in found {
        is_there[*rest as usize] = false;
    }
}
