//! What the desk does when something is asked.
ghost use Rattle.std.specs.Prelude.{◌≡◌, ℕ, List, IfNone, false, true};
ghost use Rattle.std.specs.Arc.{arc_value};
ghost use Rattle.schedule.specs.Asked.{ReplaceStart, asked_of};
ghost use Rattle.dependency_book.specs.BookState.{NothingOut, pending_of};
ghost use Rattle.dependency_book.specs.Right.{IsRightBook};
ghost use Rattle.dependency_book.specs.Shown.{IsPending};
ghost use Rattle.desk_core.specs.Looks.{LooksOn};
ghost use Rattle.desk_script.specs.Asks.{Ask, Obey};
ghost use Rattle.desk_script.specs.Heard.{IsReadAs};
ghost use Rattle.script_lines.specs.KeptText.{IsText};
ghost use Rattle.desk_server.specs.Answer.{edited, id_word, listed, obeyed, only};
ghost use Rattle.desk_server.specs.Answer.{polled, scripted, settled, shown_id, started, unless_unread};
ghost use Rattle.desk_server.specs.Served.{GivesAnswerBy, KeepsText, AnswersRequest, KeepsTaken};
ghost use Rattle.desk_server.specs.Served.{TakesBytes, TakesText, kept_text, session};
ghost use Rattle.desk_server.specs.Reply.{working_text};
ghost use Rattle.desk_server.specs.Jobs.{PostMatchesDesk, CarriesOn, DropsJobs};
ghost use Rattle.desk_core.specs.Settling.{KeepsKnown, TellsCause};
ghost use Rattle.desk_server.specs.Jobs.{IsDoneWith, KeepsCalls, KeepsCauses};
ghost use Rattle.desk_server.specs.Desks.{ComputedFor, LeavesDesk, RevisedOrSame, TakenOrSame};
ghost use Rattle.desk_server.specs.Told.{PollsBy, TellsPending, ends};
ghost use Rattle.desk_server.specs.Watch.{WatchesReply};

use crate::listener::Listener;
use crate::reply::{Reply, refused};
use desk_core::{
    Cause, Desk, Edit, EditFault, Onlooker, Plane, Polled, Post, Rule, Settling, Shown, settle_seen,
};
use desk_script::{Command, Format, Request, RuleText, script_of};
use multistate_macrocell::read_mc;
use multistate_rle::read_rle;
use plane_core::Loaded;
use script_lines::KeptText;
use std::alloc::Global;
use std::sync::{Arc, Wait};

/// How often a settling may send or receive, which is enough for every document over a prompt post.
const TURNS: u32 = 1_000_000;

// The word before the id that an edit gives, if it gives one.
fn id_word(edit: &Edit) -> &'static str
    ensures { result.now ≡ id_word (asked_of edit.now) }
{
    match edit {
        Edit::Insert { .. } => " intervention ",
        Edit::AddBookmark { .. } => " bookmark ",
        Edit::AddBranch { .. } => " branch ",
        _ => "",
    }
}

// Makes an edit, or refuses it.
fn edit(desk: &mut Desk<'_>, edit: &Edit) -> Reply
    ensures answer { GivesAnswerBy true (λ short. edited short desk.old.plan (asked_of edit.now))
        result desk.new }
    ensures left { RevisedOrSame (asked_of edit.now) desk.old desk.new }
    ensures jobs { DropsJobs desk.old desk.new }
    ensures pending { TellsPending result desk.new }
{
    match desk.edit(edit) {
        Ok(edited) => Reply::Accepted {
            revision: edited.revision,
            word: id_word(edit),
            number: edited.id,
        },
        Err(fault) => refused(&fault),
    }
}

// Takes the rule that a text means.
fn take_rule(alloc: Global, desk: &mut Desk<'_>, text: &[u8]) -> Reply
    ensures answer { TakesBytes Format.Rule text.now result desk.old desk.new }
    ensures left { TakenOrSame Format.Rule text.now desk.old desk.new }
    ensures jobs { DropsJobs desk.old desk.new }
    ensures pending { TellsPending result desk.new }
{
    let rule = match Rule::read(alloc, text) {
        Ok(rule) => rule,
        Err(fault) => return refused(&fault),
    };
    match Arc::new(alloc, rule) {
        Ok(rule) => edit(desk, &Edit::ReplaceRule(rule)),
        Err(_) => refused(&EditFault::NoMemory),
    }
}

// Takes a start whose file names this generation, or refuses it; the desk counts from 0 all the
// same.
fn begin(desk: &mut Desk<'_>, start: Arc<Plane>, generation: u64) -> Reply
    ensures answer { GivesAnswerBy true
        (λ short. started short desk.old.plan generation (arc_value start)) result desk.new }
    ensures left { RevisedOrSame (ReplaceStart (arc_value start)) desk.old desk.new }
    ensures jobs { DropsJobs desk.old desk.new }
    ensures pending { TellsPending result desk.new }
{
    let edited = match desk.edit(&Edit::ReplaceStart(start)) {
        Ok(edited) => edited,
        Err(fault) => return refused(&fault),
    };
    Reply::Accepted {
        revision: edited.revision,
        word: " gen ",
        number: Some(generation),
    }
}

// Takes the start that a file holds.
fn take_start(alloc: Global, desk: &mut Desk<'_>, pattern: Loaded) -> Reply
    ensures answer { GivesAnswerBy true (λ short. unless_unread short desk.old.plan
        (started short desk.old.plan pattern.generation pattern.plane)) result desk.new }
    ensures left { RevisedOrSame (ReplaceStart pattern.plane) desk.old desk.new }
    ensures jobs { DropsJobs desk.old desk.new }
    ensures pending { TellsPending result desk.new }
{
    match Arc::new(alloc, pattern.plane) {
        Ok(start) => begin(desk, start, pattern.generation),
        Err(_) => refused(&EditFault::NoMemory),
    }
}

// Takes the start that a run-length encoded text means.
fn take_rle(alloc: Global, desk: &mut Desk<'_>, text: &[u8]) -> Reply
    ensures answer { TakesBytes Format.Rle text.now result desk.old desk.new }
    ensures left { TakenOrSame Format.Rle text.now desk.old desk.new }
    ensures jobs { DropsJobs desk.old desk.new }
    ensures pending { TellsPending result desk.new }
{
    match read_rle(alloc, text) {
        Ok(pattern) => take_start(alloc, desk, pattern),
        Err(fault) => refused(&fault),
    }
}

// Takes the start that a macrocell text means.
fn take_macrocell(alloc: Global, desk: &mut Desk<'_>, text: &[u8]) -> Reply
    ensures answer { TakesBytes Format.Macrocell text.now result desk.old desk.new }
    ensures left { TakenOrSame Format.Macrocell text.now desk.old desk.new }
    ensures jobs { DropsJobs desk.old desk.new }
    ensures pending { TellsPending result desk.new }
{
    match read_mc(alloc, text) {
        Ok(pattern) => take_start(alloc, desk, pattern),
        Err(fault) => refused(&fault),
    }
}

// Takes what a text of this format means.
fn take(alloc: Global, desk: &mut Desk<'_>, format: Format, text: &[u8]) -> Reply
    ensures answer { TakesBytes format text.now result desk.old desk.new }
    ensures left { TakenOrSame format text.now desk.old desk.new }
    ensures jobs { DropsJobs desk.old desk.new }
    ensures pending { TellsPending result desk.new }
{
    match format {
        Format::Rule => take_rule(alloc, desk, text),
        Format::Rle => take_rle(alloc, desk, text),
        Format::Macrocell => take_macrocell(alloc, desk, text),
    }
}

// Takes what a text means, unless memory ran out for it.
fn take_kept(alloc: Global, desk: &mut Desk<'_>, format: Format, text: &KeptText) -> Reply
    ensures answer { TakesText format text.now result desk.old desk.new }
    ensures same { text.now ≡ None → desk.new.plan ≡ desk.old.plan }
    ensures left { (bytes : List ℕ) → IsText text.now bytes
        → TakenOrSame format bytes desk.old desk.new }
    ensures jobs { DropsJobs desk.old desk.new }
    ensures pending { TellsPending result desk.new }
{
    match text.bytes() {
        Some(bytes) => take(alloc, desk, format, bytes),
        None => refused(&EditFault::NoMemory),
    }
}

// Keeps the text of a rule that was taken.
fn keep(rule: &mut RuleText, format: Format, text: KeptText, is_taken: bool)
    ensures { rule.new ≡ kept_text format is_taken text rule.old }
{
    if format == Format::Rule && is_taken {
        rule.keep(text);
    }
}

// Takes what a text means, and keeps it if that is a rule which is taken.
fn take_text(
    alloc: Global,
    desk: &mut Desk<'_>,
    rule: &mut RuleText,
    format: Format,
    text: KeptText,
) -> Reply
    ensures answer { TakesText format text result desk.old desk.new }
    ensures kept { KeepsTaken format text (session desk.old rule.old) desk.new rule.new }
    ensures left { (bytes : List ℕ) → IsText text bytes
        → TakenOrSame format bytes desk.old desk.new }
    ensures jobs { DropsJobs desk.old desk.new }
    ensures pending { TellsPending result desk.new }
{
    let revision = desk.document().revision();
    let reply = take_kept(alloc, desk, format, &text);
    let is_taken = desk.document().revision() != revision;
    keep(rule, format, text, is_taken);
    reply
}

// Gives up every job that is out.
fn give_up(desk: &mut Desk<'_>)
    ensures plan { desk.new.plan ≡ desk.old.plan }
    ensures jobs { DropsJobs desk.old desk.new }
    ensures causes { KeepsCauses desk.old desk.new }
    ensures calls { KeepsCalls desk.old desk.new }
    ensures known { KeepsKnown desk.old desk.new }
    ensures right { IsRightBook desk.old → IsRightBook desk.new }
    ensures none { NothingOut desk.new }
{
    let mut first = desk.first_out();
    while let Some(number) = first {
        desk.cancel(number);
        first = desk.first_out();
    }
}

// Computes what isn't known, and gives the cause where one left bookmarks pending. Whatever is out
// then is given up, so that it is computed anew another time.
#[tactic(auto, using(crate::proofs::Jobs::carries_served, crate::proofs::Jobs::carries_on, crate::proofs::Jobs::causes_kept, crate::proofs::Jobs::why_explained, crate::proofs::Jobs::why_stopped, crate::proofs::Jobs::none_untold))]
fn compute<P: Post, O: Onlooker>(
    rt: &impl Wait,
    desk: &mut Desk<'_>,
    post: &mut P,
    onlooker: &mut O,
) -> Option<Cause>
    requires { PostMatchesDesk (P.view post.old) desk.old }
    ensures plan { desk.new.plan ≡ desk.old.plan }
    ensures caused { (P.view post.old).is_prompt ≡ true → IfNone result (pending_of desk.new ≡ 0) }
    ensures explained { TellsCause (P.view post.old) (P.view post.new) desk.old desk.new result }
    ensures given_up { IsDoneWith desk.new }
    ensures left { ComputedFor result (P.view post.old) (P.view post.new) desk.old desk.new }
    ensures post { CarriesOn (P.view post.old) (P.view post.new) desk.new }
    ensures looked { LooksOn O.sees (P.view post.old) (P.view post.new) desk.old
        onlooker.old onlooker.new }
{
    match settle_seen(rt, desk, post, TURNS, onlooker) {
        Settling::Settled => None,
        Settling::Unsettled { pending: _, cause } => {
            give_up(desk);
            cause
        }
    }
}

#[tactic(auto, using(crate::proofs::Noted::draws_more, crate::proofs::Noted::watched, crate::proofs::Jobs::nothing_out, crate::proofs::Known::all_known))]
fn settle<P: Post, O: Onlooker>(
    rt: &impl Wait,
    desk: &mut Desk<'_>,
    post: &mut P,
    onlooker: &mut O,
    listener: &mut impl Listener,
) -> Reply
    requires { PostMatchesDesk (P.view post.old) desk.old }
    ensures answer { GivesAnswerBy (P.view post.old).is_prompt
        (λ short. settled short desk.old.plan) result desk.new }
    ensures left { LeavesDesk (Obey Command.Settle) result (P.view post.old) (P.view post.new)
        desk.old desk.new }
    ensures post { CarriesOn (P.view post.old) (P.view post.new) desk.new }
    ensures looked { WatchesReply O.sees (Obey Command.Settle) result (P.view post.old)
        (P.view post.new) desk.old desk.new onlooker.old onlooker.new }
{
    listener.waits();
    let cause = compute(rt, desk, post, onlooker);
    listener.is_done();
    match desk.pending() {
        0 => Reply::Settled,
        pending => Reply::Unsettled { pending, cause },
    }
}

// Sends jobs for what isn't known, as many as the post takes, and waits for no answer.
fn work<P: Post>(rt: &impl Wait, desk: &mut Desk<'_>, post: &mut P) -> Reply
    requires { PostMatchesDesk (P.view post.old) desk.old }
    ensures answer { GivesAnswerBy (P.view post.old).is_prompt
        (λ short. only desk.old.plan working_text) result desk.new }
    ensures silent { (P.view post.new).answers ≡ (P.view post.old).answers }
    ensures left { LeavesDesk (Obey Command.Work) result (P.view post.old) (P.view post.new)
        desk.old desk.new }
    ensures post { CarriesOn (P.view post.old) (P.view post.new) desk.new }
    ensures goes_on { ends result ≡ false }
{
    desk_core::feed(rt, desk, post);
    Reply::Working
}

// Shows a bookmark: at once, unless its text isn't known. Then what isn't known is computed first.
#[tactic(auto, using(crate::proofs::Noted::draws_more, crate::proofs::Noted::watched, crate::proofs::Noted::draws_none, crate::proofs::Noted::unwatched, crate::proofs::Replies::not_pending))]
fn show<P: Post, O: Onlooker>(
    rt: &impl Wait,
    desk: &mut Desk<'_>,
    post: &mut P,
    id: u64,
    onlooker: &mut O,
    listener: &mut impl Listener,
) -> Reply
    requires { PostMatchesDesk (P.view post.old) desk.old }
    ensures answer { GivesAnswerBy (P.view post.old).is_prompt
        (λ short. shown_id short desk.old.plan id) result desk.new }
    ensures at_once { ¬ IsPending desk.old id → (desk.new ≡ desk.old) × (post.new ≡ post.old) }
    ensures left { LeavesDesk (Obey (Command.Show id)) result (P.view post.old) (P.view post.new)
        desk.old desk.new }
    ensures post { CarriesOn (P.view post.old) (P.view post.new) desk.new }
    ensures looked { WatchesReply O.sees (Obey (Command.Show id)) result (P.view post.old)
        (P.view post.new) desk.old desk.new onlooker.old onlooker.new }
{
    if desk.shown(id) != Shown::Pending {
        return Reply::Shown { id };
    }
    listener.waits();
    compute(rt, desk, post, onlooker);
    listener.is_done();
    // Whatever the desk kept, what it shows is what starting over gives.
    let _shown = desk.shown(id);
    Reply::Shown { id }
}

// Collects the answers that have come and sends jobs for what is needed next, and waits for no
// answer.
#[tactic(auto, using(crate::proofs::Replies::gives_polled))]
fn poll<P: Post>(rt: &impl Wait, desk: &mut Desk<'_>, post: &mut P) -> Reply
    requires { PostMatchesDesk (P.view post.old) desk.old }
    ensures answer { GivesAnswerBy (P.view post.old).is_prompt (λ short. polled short desk.old.plan)
        result desk.new }
    ensures polls { PollsBy (P.view post.old) (P.view post.new) desk.old desk.new result }
    ensures left { LeavesDesk (Obey Command.Poll) result (P.view post.old) (P.view post.new)
        desk.old desk.new }
    ensures post { CarriesOn (P.view post.old) (P.view post.new) desk.new }
{
    let Polled { pending, cause } = desk_core::poll(rt, desk, post);
    // No document has more bookmarks than its own.
    let _pending = desk.pending();
    Reply::Polled { pending, cause }
}

// Shows a bookmark as it is known now.
fn peek(desk: &Desk<'_>, id: u64) -> Reply
    ensures answer { GivesAnswerBy true (λ short. shown_id short desk.now.plan id) result desk.now }
    ensures is { result ≡ Reply.Shown id }
{
    // What the desk shows is what starting over gives.
    let _shown = desk.shown(id);
    Reply::Shown { id }
}

// Lists what the document has.
fn list(desk: &Desk<'_>) -> Reply
    ensures answer { GivesAnswerBy true (λ short. listed short desk.now.plan) result desk.now }
    ensures is { result ≡ Reply.Listed }
{
    let _plan = desk.document();
    Reply::Listed
}

// Writes the document as a script that makes it anew.
fn script(alloc: Global, desk: &Desk<'_>, rule: &RuleText) -> Reply
    ensures answer { GivesAnswerBy true (λ short. scripted short (session desk.now rule.now)) result
        desk.now }
    ensures pending { TellsPending result desk.now }
{
    match script_of(alloc, desk.document(), rule) {
        Ok(script) => Reply::Scripted { script },
        Err(_) => refused(&EditFault::NoMemory),
    }
}

#[tactic(auto, using(crate::proofs::Noted::draws_none, crate::proofs::Noted::unwatched))]
fn obey<P: Post, O: Onlooker>(
    rt: &impl Wait,
    alloc: Global,
    desk: &mut Desk<'_>,
    rule: &RuleText,
    post: &mut P,
    command: Command,
    onlooker: &mut O,
    listener: &mut impl Listener,
) -> Reply
    requires { PostMatchesDesk (P.view post.old) desk.old }
    ensures answer { GivesAnswerBy (P.view post.old).is_prompt
        (λ short. obeyed short (session desk.old rule.now) command) result desk.new }
    ensures left { LeavesDesk (Obey command) result (P.view post.old) (P.view post.new)
        desk.old desk.new }
    ensures post { CarriesOn (P.view post.old) (P.view post.new) desk.new }
    ensures looked { WatchesReply O.sees (Obey command) result (P.view post.old)
        (P.view post.new) desk.old desk.new onlooker.old onlooker.new }
{
    match command {
        Command::Edit(change) => edit(desk, &change),
        Command::Settle => settle(rt, desk, post, onlooker, listener),
        Command::Work => work(rt, desk, post),
        Command::Show { id } => show(rt, desk, post, id, onlooker, listener),
        Command::Peek { id } => peek(desk, id),
        Command::Poll => poll(rt, desk, post),
        Command::List => list(desk),
        Command::Script => script(alloc, desk, rule),
        Command::Help => Reply::Help,
        Command::Quit => Reply::Bye,
    }
}

/// Does what a request asks, and gives the reply. What has to be computed goes over the post, while
/// the desk is looked at and the listener rings.
#[tactic(auto, using(crate::proofs::Replies::keeps_obeyed, crate::proofs::Replies::keeps_taken, crate::proofs::Replies::keeps_same, crate::proofs::Noted::looked_obeyed, crate::proofs::Left::left_obeyed, crate::proofs::Left::left_taken, crate::proofs::Left::left_refused, crate::proofs::Left::left_none))]
pub(crate) fn serve<P: Post, O: Onlooker>(
    rt: &impl Wait,
    alloc: Global,
    desk: &mut Desk<'_>,
    rule: &mut RuleText,
    post: &mut P,
    request: Request,
    onlooker: &mut O,
    listener: &mut impl Listener,
) -> Reply
    requires { PostMatchesDesk (P.view post.old) desk.old }
    ensures answer { AnswersRequest (P.view post.old).is_prompt request result
        (session desk.old rule.old) desk.new }
    ensures kept { KeepsText request (session desk.old rule.old) desk.new rule.new }
    ensures left { (ask : Ask) → IsReadAs request ask → LeavesDesk ask result (P.view post.old)
        (P.view post.new) desk.old desk.new }
    ensures post { CarriesOn (P.view post.old) (P.view post.new) desk.new }
    ensures looked { (ask : Ask) → IsReadAs request ask → WatchesReply O.sees ask result
        (P.view post.old) (P.view post.new) desk.old desk.new onlooker.old onlooker.new }
{
    match request {
        Request::Obey(command) => obey(rt, alloc, desk, rule, post, command, onlooker, listener),
        Request::Take { format, text } => take_text(alloc, desk, rule, format, text),
        Request::Refuse(fault) => refused(&fault),
        Request::NoMemory => refused(&EditFault::NoMemory),
    }
}
