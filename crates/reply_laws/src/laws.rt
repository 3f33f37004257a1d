//! Laws of the definitions, each the contract of a function that does nothing.
ghost use Rattle.reply_laws.specs.Anew.{KeptTextsAreRules, ScriptsMakeAnew};
ghost use Rattle.reply_laws.specs.Anew.{WhateverIsScriptedIsMadeAnew};
ghost use Rattle.reply_laws.specs.Current.{CurrentIsScratch};
ghost use Rattle.reply_laws.specs.Example.{FirstAnswersAreGiven};
ghost use Rattle.reply_laws.specs.OneLine.{DocumentsAreSound, OneLineWithoutBranch};
ghost use Rattle.reply_laws.specs.Plain.{PlainWithoutShortages};

use desk_core::{calls_are_of_law, calls_show_only_scratch};

/// Where no reply shows a want, the replies are those where none is met.
#[tactic(auto, using(crate::proofs::Plain::afters_plain))]
pub fn plain_without_shortages()
    ensures { PlainWithoutShortages }
{}

/// The document after each reply to a script keeps the limits of documents.
#[tactic(auto, using(crate::proofs::OneLine::documents_sound))]
pub fn documents_are_sound()
    ensures { DocumentsAreSound }
{}

/// Where a script adds no branch, the document after each reply has one line of history, and its
/// bookmarks show what that line gives.
#[tactic(auto, using(crate::proofs::OneLine::documents_one_line))]
pub fn one_line_without_branch()
    ensures { OneLineWithoutBranch }
{}

/// The script that is written of a document makes it anew: each of its commands is accepted, and
/// the last leaves the document but for its revision and the last ids.
#[tactic(auto, using(crate::proofs::Remade::scripts_anew))]
pub fn scripts_make_documents_anew()
    ensures { ScriptsMakeAnew }
{}

/// Whatever a script says, the text that is kept is that of the document's rule, in lines of which
/// none ends a text. Where none is kept the rule is the opening document's.
#[tactic(auto, using(crate::proofs::RuleTexts::kept_texts))]
pub fn kept_texts_are_rules()
    ensures { KeptTextsAreRules }
{}

/// Whatever a script says, the script that is written in one of its sessions makes the document
/// anew, where its start has few enough distinct squares and two revisions are left.
#[tactic(auto, using(crate::proofs::EachSession::scripted_anew))]
pub fn whatever_is_scripted_is_made_anew()
    ensures { WhateverIsScriptedIsMadeAnew }
{}

/// Over a whole script, from its opening on, calls of which `calls_show_only_scratch` speaks lead
/// from each desk at which something is answered to the next. So each text that a reply writes as
/// current, or lists so, is what starting over gives for the document at that moment, by that law.
pub fn current_is_scratch()
    ensures { CurrentIsScratch }
{
    calls_are_of_law();
    calls_show_only_scratch();
}

/// Worked answers at a desk of the opening document, to which that law applies, as it does to those
/// that each `run` gives.
pub fn first_answers_are_given()
    ensures { FirstAnswersAreGiven }
{}
