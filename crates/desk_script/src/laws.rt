//! Laws of the definitions, each the contract of a function that does nothing.
ghost use Rattle.desk_script.specs.ReadsBack.{EditLinesReadBack};

/// The line of an edit, in a script that makes a document anew, asks for this edit.
#[tactic(auto, using(crate::proofs::Shared::ReadsBack::lines_read_back))]
pub fn edit_lines_read_back()
    ensures { EditLinesReadBack }
{}
