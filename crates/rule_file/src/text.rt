//! The part of a rule file that says what the rule does.
ghost use Rattle.std.specs.Prelude.{◌≡◌};

use basics::Listing;
use std::marker::Model;

/// The kinds of sections that say what a rule does.
#[derive(Clone, Copy, Debug, PartialEq, Eq)]
pub enum SectionKind {
    Table,
    Tree,
}

/// A line of a section, which borrows what it says from the file.
///
/// The text is trimmed, has no comment and is not empty.
#[derive(Debug, Drop)]
pub struct RuleLine<'a> {
    number: u64,
    text: &'a [u8],
}

impl<'a> Model for RuleLine<'a> {
    ghost use Rattle.rule_file.specs.RuleFile.{NumberedLine};

    ghost Value = { NumberedLine };

    ghost view = { λ line. record { number = line.number; text = line.text.now } };
}

impl<'a> RuleLine<'a> {
    pub(crate) fn new(number: u64, text: &'a [u8]) -> RuleLine<'a>
        ensures { result ≡ record { number = number; text = text.now } }
    {
        RuleLine { number, text }
    }

    /// The number of the line in the file, whose first line has the number 1.
    pub fn number(&self) -> u64
        ensures { result ≡ self.now.number }
    {
        self.number
    }

    /// What the line says.
    pub fn text(&self) -> &'a [u8]
        ensures { result.now ≡ self.now.text }
    {
        self.text
    }
}

/// A rule file, cut: the name of the rule, and the section that says what the rule does.
#[derive(Debug, Drop)]
pub struct RuleText<'a> {
    name: &'a [u8],
    kind: SectionKind,
    opened: u64,
    lines: Listing<RuleLine<'a>>,
}

impl<'a> Model for RuleText<'a> {
    ghost use Rattle.rule_file.specs.RuleFile.{RuleFile};

    ghost Value = { RuleFile };

    ghost view = { λ text. record {
      name = text.name.now;
      section = record { kind = text.kind; opened = text.opened; lines = text.lines };
    } };
}

impl<'a> RuleText<'a> {
    pub(crate) fn new(
        name: &'a [u8],
        kind: SectionKind,
        opened: u64,
        lines: Vec<RuleLine<'a>>,
    ) -> RuleText<'a>
        ensures { result ≡ record {
          name = name.now;
          section = record { kind = kind; opened = opened; lines = lines.entry.items };
        } }
    {
        RuleText {
            name,
            kind,
            opened,
            lines: Listing::from_vec(lines),
        }
    }

    /// The rule's name, of bytes from 33 to 126 without the colon.
    pub fn name(&self) -> &'a [u8]
        ensures { result.now ≡ self.now.name }
    {
        self.name
    }

    /// Whether the section is a table or a tree.
    pub fn kind(&self) -> SectionKind
        ensures { result ≡ self.now.section.kind }
    {
        self.kind
    }

    /// The number of the line that opens the section.
    pub fn opened(&self) -> u64
        ensures { result ≡ self.now.section.opened }
    {
        self.opened
    }

    /// The section's lines in order, without comments and blank lines.
    pub fn lines(&self) -> &[RuleLine<'a>]
        ensures { result.now ≡ self.now.section.lines }
    {
        self.lines.as_slice()
    }
}
