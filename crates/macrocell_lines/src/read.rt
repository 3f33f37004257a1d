//! Reading a macrocell text.
ghost use Rattle.std.specs.Prelude.{◌≡◌, ◌+◌, ◌<◌, ◌^◌, ◌∷◌, [], ◌++◌, length, IfOk, OnOk};
ghost use Rattle.text_lines.specs.Lines.{says};
ghost use Rattle.basics.specs.Results.{Gives, GivesBy};
ghost use Rattle.macrocell_lines.specs.declared.node.Node.{Node};
ghost use Rattle.macrocell_lines.specs.Kept.{said_of};
ghost use Rattle.macrocell_lines.specs.MacrocellText.{BeginsWithNodes, after_line, after_lines, macrocell_of, nothing_said, said_by};
ghost use Rattle.macrocell_lines.specs.Nodes.{AreNodes};

use crate::fault::McFault;
use crate::heading::{Heading, after_comment};
use crate::macrocell::Macrocell;
use crate::node::Node;
use crate::node_line::node_of;
use std::alloc::Global;
use text_lines::Lines;

/// Reads a macrocell text, as Golly writes it.
///
/// The first line begins with `[M2]`, else the text is refused by NoM2. Blank lines and comments
/// are passed over; `#R` gives the rule's name and `#G` the generation. Any other line is a node:
/// five numbers, its level and its quadrants nw, ne, sw and se, or a square of 8 by 8 cells in
/// `.`, `*` and `$`. The first faulty line is answered. NoMemory comes only where memory was
/// wanted, and then at a node that has no fault before it.
pub fn read_macrocell(alloc: Global, text: &[u8]) -> Result<Macrocell<'_>, McFault>
    ensures read { Gives McFault.NoMemory result (macrocell_of text.now) }
    ensures nodes { IfOk result (λ said. AreNodes said.nodes) }
    ensures want { result ≡ Err McFault.NoMemory → BeginsWithNodes said_by (says text.now) }
{
    let mut lines = Lines::new(text);
    match lines.next() {
        Some(first) if first.starts_with(b"[M2]") => read_lines(alloc, lines),
        _ => Err(McFault::NoM2),
    }
}

// What the lines behind the first say.
fn read_lines<'a>(alloc: Global, lines: Lines<'a>) -> Result<Macrocell<'a>, McFault>
    requires { 1 + length lines < 2 ^ 64 }
    ensures read { Gives McFault.NoMemory result (after_lines 2 nothing_said lines.entry) }
    ensures nodes { IfOk result (λ said. AreNodes said.nodes) }
    ensures want { result ≡ Err McFault.NoMemory
        → BeginsWithNodes (after_lines 2 nothing_said) lines.entry }
{
    let mut lines = lines;
    let mut number = 1u64;
    let mut heading = Heading {
        rule_name: b"",
        generation: 0,
    };
    let mut nodes = Vec::new(alloc);
    while let Some(line) = lines.next() {
        number += 1;
        heading = take_line(number, line, heading, &mut nodes)?;
    }
    Ok(Macrocell::new(heading, nodes))
}

// The heading after one more line; a node that it says goes behind the others.
fn take_line<'a>(
    number: u64,
    line: &'a [u8],
    heading: Heading<'a>,
    nodes: &mut Vec<Node>,
) -> Result<Heading<'a>, McFault>
    requires { AreNodes nodes.old.items }
    ensures read { GivesBy McFault.NoMemory (λ h. said_of h nodes.new.items) result
        (after_line number (said_of heading.entry nodes.old.items) line.now) }
    ensures nodes { OnOk result (AreNodes nodes.new.items) }
    ensures want { result ≡ Err McFault.NoMemory → (node : Node)
        × (after_line number (said_of heading.entry nodes.old.items) line.now
        ≡ Ok (said_of heading.entry (nodes.old.items ++ node ∷ []))) }
{
    match line {
        [] => Ok(heading),
        [b'#', ..] => after_comment(heading, line),
        _ => {
            let node = node_of(number, nodes, line)?;
            nodes.push(node)?;
            Ok(heading)
        }
    }
}
