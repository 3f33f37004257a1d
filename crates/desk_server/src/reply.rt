//! Replies, and how they are written.
ghost use Rattle.std.specs.Prelude.{◌≡◌, ◌+◌, ℕ, OnOk, OnErr, codes, false, true};
ghost use Rattle.script_lines.specs.Faults.{Wrote};
ghost use Rattle.dependency_book.specs.BookState.{BookState};
ghost use Rattle.std.specs.Option.{option_map_or};
ghost use Rattle.desk_core.specs.Cause.{cause_number};
ghost use Rattle.desk_server.specs.Faults.{fault_of};
ghost use Rattle.desk_server.specs.Reply.{accepted_text, polled_text, refused_text, unsettled_text};
ghost use Rattle.desk_server.specs.Reply.{help_text, scripted_text};
ghost use Rattle.desk_server.specs.Told.{IsRefused, TellsPending, reply_text, ends};

use crate::listing::tell_list;
use crate::parts::tell_parts;
use desk_core::{Cause, Desk, EditFault, Listing, Reason, Refusal, Shown};
use desk_script::Part;
use script_help::command_list;
use script_lines::{CountedWriter, Failed};
use std::io::Write;
use std::sync::ledger::Ledger;

/// What is replied to a command.
#[derive(Debug, Drop)]
pub enum Reply {
    /// An edit was made: the revision after it, and a number behind its word, if there is one.
    Accepted {
        revision: u64,
        word: &'static str,
        number: Option<u64>,
    },
    /// Every bookmark is current.
    Settled,
    /// Jobs for what isn't known were sent, as far as the post took them.
    Working,
    /// So many bookmarks are pending, for this cause, if one was met.
    Unsettled {
        pending: u32,
        cause: Option<Cause>,
    },
    /// What the desk shows of the bookmark of this id.
    Shown {
        id: u64,
    },
    /// So many bookmarks are pending still, with this cause, if one was met.
    Polled {
        pending: u32,
        cause: Option<Cause>,
    },
    /// What the document has.
    Listed,
    /// The script that makes the document anew.
    Scripted {
        script: Listing<u8>,
    },
    /// Why something was refused.
    Refused(Reason),
    /// The list of the commands.
    Help,
    /// The script ends.
    Bye,
}

impl Reply {
    /// Whether the script ends with it.
    pub(crate) fn ends(&self) -> bool
        ensures { result ≡ ends self.now }
    {
        matches!(self, Reply::Bye)
    }
}

/// The reply to something refused.
pub(crate) fn refused<F: Refusal>(fault: &F) -> Reply
    ensures text { (known : BookState) → reply_text known result ≡ refused_text
        (fault_of (F.number_of fault.now) (F.name_of fault.now) (F.place_of fault.now)) }
    ensures goes_on { ends result ≡ false }
    ensures pending { (known : BookState) → TellsPending result known }
    ensures is { IsRefused result }
{
    Reply::Refused(fault.reason())
}

fn tell_accepted<W: Write, L: Ledger>(
    writer: &mut CountedWriter<W, L>,
    revision: u64,
    word: &str,
    number: Option<u64>,
) -> Result<(), Failed>
    ensures bytes { Wrote writer.old.contents writer.new.contents result
        (accepted_text revision word.now number) }
    ensures worked { OnOk result (writer.new.failures ≡ writer.old.failures) }
    ensures failed { OnErr result (writer.new.failures ≡ writer.old.failures + 1) }
{
    let (ok, revision, end) = (
        Part::Text(b"ok "),
        Part::Number(revision),
        Part::Text(b"\n"),
    );
    match number {
        None => tell_parts(writer, &[ok, revision, end]),
        Some(number) => tell_parts(
            writer,
            &[
                ok,
                revision,
                Part::Text(word.as_bytes()),
                Part::Number(number),
                end,
            ],
        ),
    }
}

// The number of a cause, or 0 where there is none.
fn cause_number(cause: Option<Cause>) -> u64
    ensures { result ≡ option_map_or cause_number cause 0 }
{
    match cause {
        Some(cause) => u64::from(cause.number()),
        None => 0,
    }
}

fn tell_unsettled<W: Write, L: Ledger>(
    writer: &mut CountedWriter<W, L>,
    pending: u32,
    cause: Option<Cause>,
) -> Result<(), Failed>
    ensures bytes { Wrote writer.old.contents writer.new.contents result
        (unsettled_text pending cause) }
    ensures worked { OnOk result (writer.new.failures ≡ writer.old.failures) }
    ensures failed { OnErr result (writer.new.failures ≡ writer.old.failures + 1) }
{
    tell_parts(
        writer,
        &[
            Part::Text(b"unsettled "),
            Part::Number(pending as u64),
            Part::Text(b" "),
            Part::Number(cause_number(cause)),
            Part::Text(b"\n"),
        ],
    )
}

fn tell_polled<W: Write, L: Ledger>(
    writer: &mut CountedWriter<W, L>,
    pending: u32,
    cause: Option<Cause>,
) -> Result<(), Failed>
    ensures bytes { Wrote writer.old.contents writer.new.contents result
        (polled_text pending cause) }
    ensures worked { OnOk result (writer.new.failures ≡ writer.old.failures) }
    ensures failed { OnErr result (writer.new.failures ≡ writer.old.failures + 1) }
{
    let (polled, pending) = (Part::Text(b"polled "), Part::Number(u64::from(pending)));
    let end = Part::Text(b"\n");
    match cause {
        None => tell_parts(writer, &[polled, pending, end]),
        Some(cause) => {
            let number = Part::Number(u64::from(cause.number()));
            tell_parts(writer, &[polled, pending, Part::Text(b" "), number, end])
        }
    }
}

fn tell_refused<W: Write, L: Ledger>(
    writer: &mut CountedWriter<W, L>,
    reason: Reason,
) -> Result<(), Failed>
    ensures bytes { Wrote writer.old.contents writer.new.contents result
        (refused_text (fault_of reason.number reason.name.now reason.place)) }
    ensures worked { OnOk result (writer.new.failures ≡ writer.old.failures) }
    ensures failed { OnErr result (writer.new.failures ≡ writer.old.failures + 1) }
{
    let refused = Part::Text(b"refused ");
    let number = Part::Number(u64::from(reason.number));
    let space = Part::Text(b" ");
    let name = Part::Text(reason.name.as_bytes());
    let end = Part::Text(b"\n");
    match reason.place {
        None => tell_parts(writer, &[refused, number, space, name, end]),
        Some(place) => tell_parts(
            writer,
            &[
                refused,
                number,
                space,
                name,
                space,
                Part::Number(place),
                end,
            ],
        ),
    }
}

fn tell_shown<W: Write, L: Ledger>(
    writer: &mut CountedWriter<W, L>,
    desk: &Desk<'_>,
    id: u64,
) -> Result<(), Failed>
    ensures bytes { Wrote writer.old.contents writer.new.contents result
        (reply_text desk.now (Reply.Shown id)) }
    ensures worked { OnOk result (writer.new.failures ≡ writer.old.failures) }
    ensures failed { OnErr result (writer.new.failures ≡ writer.old.failures + 1) }
{
    let (bookmark, number) = (Part::Text(b"bookmark "), Part::Number(id));
    match desk.shown(id) {
        Shown::NoSuch => {
            let fault = EditFault::NoSuchBookmark;
            tell_refused(writer, fault.reason())
        }
        Shown::Pending => tell_parts(writer, &[bookmark, number, Part::Text(b" pending\n")]),
        Shown::Current(text) => {
            let size = Part::Number(text.len() as u64);
            let (current, end) = (Part::Text(b" current "), Part::Text(b"\n"));
            tell_parts(
                writer,
                &[bookmark, number, current, size, end, Part::Text(text)],
            )
        }
    }
}

// Writes a script, and how many bytes it has.
fn tell_scripted<W: Write, L: Ledger>(
    writer: &mut CountedWriter<W, L>,
    script: &[u8],
) -> Result<(), Failed>
    ensures bytes { Wrote writer.old.contents writer.new.contents result
        (scripted_text script.now) }
    ensures worked { OnOk result (writer.new.failures ≡ writer.old.failures) }
    ensures failed { OnErr result (writer.new.failures ≡ writer.old.failures + 1) }
{
    let (word, size) = (Part::Text(b"scripted "), Part::Number(script.len() as u64));
    tell_parts(writer, &[Part::Text(script), word, size, Part::Text(b"\n")])
}

// Writes the list of the commands, after a line that says how many bytes it has.
fn tell_help<W: Write, L: Ledger>(writer: &mut CountedWriter<W, L>) -> Result<(), Failed>
    ensures bytes { Wrote writer.old.contents writer.new.contents result help_text }
    ensures worked { OnOk result (writer.new.failures ≡ writer.old.failures) }
    ensures failed { OnErr result (writer.new.failures ≡ writer.old.failures + 1) }
{
    let list = command_list().as_bytes();
    let (word, size) = (Part::Text(b"help "), Part::Number(list.len() as u64));
    tell_parts(writer, &[word, size, Part::Text(b"\n"), Part::Text(list)])
}

fn tell<W: Write, L: Ledger>(
    writer: &mut CountedWriter<W, L>,
    desk: &Desk<'_>,
    reply: &Reply,
) -> Result<(), Failed>
    ensures bytes { Wrote writer.old.contents writer.new.contents result
        (reply_text desk.now reply.now) }
    ensures worked { OnOk result (writer.new.failures ≡ writer.old.failures) }
    ensures failed { OnErr result (writer.new.failures ≡ writer.old.failures + 1) }
{
    match reply {
        Reply::Accepted {
            revision,
            word,
            number,
        } => tell_accepted(writer, *revision, word, *number),
        Reply::Settled => writer.tell(b"settled\n"),
        Reply::Working => writer.tell(b"working\n"),
        Reply::Unsettled { pending, cause } => tell_unsettled(writer, *pending, *cause),
        Reply::Shown { id } => tell_shown(writer, desk, *id),
        Reply::Polled { pending, cause } => tell_polled(writer, *pending, *cause),
        Reply::Listed => tell_list(writer, desk),
        Reply::Scripted { script } => tell_scripted(writer, script.as_slice()),
        Reply::Refused(reason) => tell_refused(writer, *reason),
        Reply::Help => tell_help(writer),
        Reply::Bye => writer.tell(b"bye\n"),
    }
}

/// Writes a reply, and hands it on at once.
pub(crate) fn send<W: Write, L: Ledger>(
    writer: &mut CountedWriter<W, L>,
    desk: &Desk<'_>,
    reply: Reply,
) -> Result<(), Failed>
    ensures bytes { Wrote writer.old.contents writer.new.contents result
        (reply_text desk.now reply) }
    ensures worked { OnOk result (writer.new.failures ≡ writer.old.failures) }
    ensures failed { OnErr result (writer.new.failures ≡ writer.old.failures + 1) }
    ensures flushed { OnOk result (writer.new.flushed ≡ true) }
{
    tell(writer, desk, &reply)?;
    writer.flush()
}
