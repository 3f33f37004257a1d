//! The text of the document's rule.
ghost use Rattle.std.specs.Prelude.{◌≡◌, None, Some, MatchOption};

use script_lines::KeptText;
use std::marker::Model;

/// The text of the rule that was taken last, or nothing where none was: then the document has the
/// rule of the opening one.
#[derive(Drop)]
pub struct RuleText {
    text: Option<KeptText>,
}

impl Model for RuleText {
    ghost use Rattle.std.specs.Prelude.{List, ℕ, Option};
    ghost use Rattle.std.specs.Option.{option_flatten};

    ghost Value = { Option (List ℕ) };

    ghost view = { λ rule. option_flatten rule.text };
}

impl RuleText {
    /// No rule was taken.
    pub fn none() -> RuleText
        ensures { result ≡ None }
    {
        RuleText { text: None }
    }

    /// The text's bytes, if a rule was taken.
    pub fn bytes(&self) -> Option<&[u8]>
        ensures { MatchOption result (self.now ≡ None) (λ bytes. self.now ≡ Some bytes.now) }
    {
        match &self.text {
            Some(text) => text.bytes(),
            None => None,
        }
    }

    /// The text is that of a rule that was taken.
    pub fn keep(&mut self, text: KeptText)
        ensures { self.new ≡ text }
    {
        self.text = Some(text);
    }
}
