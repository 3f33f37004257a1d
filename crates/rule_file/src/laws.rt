//! Laws of the definitions, each the contract of a function that does nothing.
ghost use Rattle.rule_file.specs.Laws.{BlanksDoNotMatter, CommentsDoNotMatter, LineEndsDoNotMatter, LinesSayAll, RemarksDoNotMatter};

/// What the lines of a text say is all that counts of it.
#[tactic(auto, using(crate::proofs::Remarks::lines_say_all))]
pub fn lines_say_all()
    ensures { LinesSayAll }
{}

/// A file may end its lines with carriage returns and line feeds in place of line feeds.
#[tactic(auto, using(crate::proofs::Remarks::line_ends))]
pub fn line_ends_do_not_matter()
    ensures { LineEndsDoNotMatter }
{}

/// Blanks may stand at both ends of a line.
#[tactic(auto, using(crate::proofs::Remarks::blanks))]
pub fn blanks_do_not_matter()
    ensures { BlanksDoNotMatter }
{}

/// A comment may stand at the end of a line that opens no section, behind the one that names the
/// rule.
#[tactic(auto, using(crate::proofs::Remarks::comments))]
pub fn comments_do_not_matter()
    ensures { CommentsDoNotMatter }
{}

/// Blank lines and comments may stand between lines, behind the one that names the rule: all they
/// change is the numbers of the lines behind them.
#[tactic(auto, using(crate::proofs::Remarks::remarks))]
pub fn remarks_do_not_matter()
    ensures { RemarksDoNotMatter }
{}
