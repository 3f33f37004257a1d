//! The lines of a file with their numbers.
ghost use Rattle.std.specs.Prelude.{◌≡◌, ◌∷◌, [], MatchOption};
ghost use Rattle.text_lines.specs.Lines.{says};
ghost use Rattle.rule_file.specs.RuleFile.{numbered_from};

use crate::text::RuleLine;
use std::marker::Model;
use text_lines::Lines;

/// The lines of a file that are left, each with its number.
#[derive(Debug, Drop)]
pub struct NumberedLines<'a> {
    passed: u64,
    lines: Lines<'a>,
}

impl<'a> Model for NumberedLines<'a> {
    ghost use Rattle.std.specs.Prelude.{List, length, ◌+◌, ◌<◌, ◌^◌};
    ghost use Rattle.rule_file.specs.RuleFile.{NumberedLine, numbered_from};

    ghost Value = { List NumberedLine };

    ghost view = { λ left. numbered_from (left.passed + 1) left.lines };

    ghost invariant = { λ left. left.passed + length left.lines < 2 ^ 64 };
}

impl<'a> NumberedLines<'a> {
    /// The lines of a file, of which the first has the number 1.
    pub fn new(text: &'a [u8]) -> NumberedLines<'a>
        ensures { result ≡ numbered_from 1 (says text.now) }
    {
        NumberedLines {
            passed: 0,
            lines: Lines::new(text),
        }
    }

    /// Takes the next line.
    pub fn next(&mut self) -> Option<RuleLine<'a>>
        ensures { MatchOption result (self.old ≡ []) (λ line. self.old ≡ line ∷ self.new) }
    {
        let text = self.lines.next()?;
        self.passed += 1;
        Some(RuleLine::new(self.passed, text))
    }
}
