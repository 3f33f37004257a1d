//! What a macrocell text says.
ghost use Rattle.std.specs.Prelude.{◌≡◌};

use crate::heading::Heading;
use crate::node::Node;
use std::marker::Model;

/// What a macrocell text says: the rule's name, the generation, and the nodes in file order, of
/// which the first has the number 1 and the last is the root.
///
/// The name borrows from the text.
#[derive(Debug, Drop)]
pub struct Macrocell<'a> {
    heading: Heading<'a>,
    nodes: Vec<Node>,
}

impl<'a> Model for Macrocell<'a> {
    ghost use Rattle.macrocell_lines.specs.MacrocellText.{MacrocellText};

    ghost Value = { MacrocellText };

    ghost view = { λ said. record {
      heading = record {
        rule_name = said.heading.rule_name.now;
        generation = said.heading.generation;
      };
      nodes = said.nodes.items;
    } };
}

impl<'a> Macrocell<'a> {
    pub(crate) fn new(heading: Heading<'a>, nodes: Vec<Node>) -> Macrocell<'a>
        ensures { result ≡ record {
          heading = record {
            rule_name = heading.entry.rule_name.now;
            generation = heading.entry.generation;
          };
          nodes = nodes.items;
        } }
    {
        Macrocell { heading, nodes }
    }

    /// The rule's name, empty where the text gives none.
    pub fn rule_name(&self) -> &'a [u8]
        ensures { result.now ≡ self.now.heading.rule_name }
    {
        self.heading.rule_name
    }

    /// The generation, 0 where the text gives none.
    pub fn generation(&self) -> u64
        ensures { result ≡ self.now.heading.generation }
    {
        self.heading.generation
    }

    /// The nodes in file order.
    pub fn nodes(&self) -> &[Node]
        ensures { result.now ≡ self.now.nodes }
    {
        &self.nodes
    }
}
