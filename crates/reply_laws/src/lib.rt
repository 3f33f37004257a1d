//! What the replies to a script come to, as definitions and laws.
//!
//! A run promises to write the replies to the script that it reads, for some shortages. The laws
//! say what that is where no reply shows a shortage, that what replies show as current is right by
//! the law of a desk's calls, which documents stand behind the replies, and that a document that a
//! script makes can be written as a script that makes it anew.
//!
//! Here is no code.
#![tactic(auto)]

mod laws;

pub use laws::{
    current_is_scratch, documents_are_sound, first_answers_are_given, kept_texts_are_rules,
    one_line_without_branch, plain_without_shortages, scripts_make_documents_anew,
    whatever_is_scripted_is_made_anew,
};
