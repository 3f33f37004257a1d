//! Laws of the edits for a document, each the contract of a function that does nothing.
ghost use Rattle.replay_laws.specs.Example.{WorkedDocument};
ghost use Rattle.replay_laws.specs.Law.{DocumentsAreMadeAnew, EditsMakeDocuments};
ghost use Rattle.replay_laws.specs.Law.{RowsAreMadeAnew, ShowsTheSame};

/// Every document that edits made of an opening one is made anew by the edits for it, unless it has
/// fewer than two revisions left: from an opening document on none of them is refused, and they
/// lead to the same document, but for its revision and the last ids. It shows the same texts.
pub fn documents_are_made_anew()
    ensures made { DocumentsAreMadeAnew }
    ensures shown { ShowsTheSame }
{}

/// Where a document has the rule and the start and nothing else, at any revision, the edits that
/// add branches, bookmarks and interventions lead to the whole document.
pub fn rows_are_made_anew()
    ensures { RowsAreMadeAnew }
{}

/// Whatever edits make of an opening document has ids from 1 on, and no intervention of more than
/// 10,000 cells.
pub fn edits_make_documents()
    ensures { EditsMakeDocuments }
{}

/// A worked document, to which the law applies: it has a branch, a bookmark and a repeating
/// intervention, and of each kind one of a lesser id was removed.
pub fn worked_document()
    ensures { WorkedDocument }
{}
