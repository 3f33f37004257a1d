//! A script whose desk is shown to viewers in threads.
ghost use Rattle.std.specs.Prelude.{◌≡◌, ◌<◌};
ghost use Rattle.desk_server.specs.Jobs.{IsFresh};

use crate::tests::devices::{Narrow, Pieces};
use crate::tests::first::{FIRST, FIRST_REPLIES};
use crate::tests::{SQUARES, same};
use desk_board::{Publisher, Seen, Viewer, board, snapshot};
use desk_core::Desk;
use desk_server::{
    CountedReader, CountedWriter, Entries, InlinePost, Listener, Post, RunFault, run_seen,
};
use revision_jobs::{Job, Received, Sent};
use std::alloc::{AllocFailed, Global};
use std::marker::Brand;
use std::process::Abort;
use std::sync::Wait;
use std::sync::ledger::{Blank, Ledger};
use std::thread;

/// The revision after the script's last edit.
const LAST: u64 = 3;

/// A viewer is let look at most so often.
const LOOKS: u64 = 50_000_000;

/// What a viewer saw: the revision of the last snapshot, and whether a revision was below one that
/// it saw before.
#[derive(Clone, Copy, Debug, PartialEq, Eq)]
struct Watched {
    last: u64,
    fell: bool,
}

/// Looks until the last revision is shown.
fn watch(viewer: Viewer) -> Watched {
    let mut viewer = viewer;
    let mut watched = Watched {
        last: 0,
        fell: false,
    };
    for _ in 0..LOOKS {
        let Ok(seen) = viewer.look() else {
            break;
        };
        let revision = seen.snapshot().document().revision();
        viewer = seen.done();
        watched = Watched {
            last: revision,
            fell: watched.fell || revision < watched.last,
        };
        if revision == LAST {
            break;
        }
    }
    watched
}

/// Looks at a board when it is told to, and keeps what it sees.
#[derive(Drop)]
struct Looks {
    viewer: Option<Viewer>,
    seen: Vec<u8>,
}

/// Writes down what is shown: the last digit of its position in the history, and for each row `+`
/// where it has its text and `-` where it is pending.
fn write_down(shown: &Seen, seen: &mut Vec<u8>) -> Result<(), AllocFailed<u8>> {
    let position = shown.receipt().position();
    seen.push(b'0' + (position % 10) as u8)?;
    for row in shown.snapshot().rows() {
        seen.push(if row.text.is_some() { b'+' } else { b'-' })?;
    }
    seen.push(b'\n')
}

/// Looks, and keeps what it sees.
fn look(viewer: Option<Viewer>, seen: &mut Vec<u8>) -> Option<Viewer> {
    match viewer?.look() {
        Ok(shown) => {
            let _written = write_down(&shown, seen);
            Some(shown.done())
        }
        Err(viewer) => Some(viewer),
    }
}

/// A listener that looks whenever it rings.
impl Listener for Looks {
    fn waits(&mut self) {
        self.viewer = look(self.viewer.take(), &mut self.seen);
    }

    fn is_done(&mut self) {
        self.viewer = look(self.viewer.take(), &mut self.seen);
    }
}

/// A post that looks before it gives an answer.
#[derive(Drop)]
struct LooksOn<'a> {
    inner: InlinePost<'a>,
    viewer: Option<Viewer>,
    seen: Vec<u8>,
}

impl<'a> Post for LooksOn<'a> {
    ghost view = { λ post. post.inner };

    fn send(&mut self, job: Job) -> Sent {
        self.inner.send(job)
    }

    fn receive(&mut self) -> Received {
        self.viewer = look(self.viewer.take(), &mut self.seen);
        self.inner.receive()
    }

    fn try_receive(&mut self) -> Received {
        self.inner.try_receive()
    }

    fn floor(&self) -> u64 {
        self.inner.floor()
    }
}

/// How the script was answered over the post, and what was written.
fn answer_shown<P: Post, B: Wait, L: Ledger, M: Ledger>(
    rt: &impl Wait,
    alloc: Global,
    entries: &Entries,
    script: &[u8],
    post: &mut P,
    publisher: &mut Publisher<B>,
    listener: &mut impl Listener,
    reader_blank: Blank,
    writer_blank: Blank,
) -> (Result<u64, RunFault>, Vec<u8>)
    requires fresh { IsFresh (P.view post.old) entries.now }
    requires reader { (reader_blank.name ≡ L.name) × (reader_blank.parts ≡ L.parts)
        × (0 < reader_blank.parts) }
    requires writer { (writer_blank.name ≡ M.name) × (writer_blank.parts ≡ M.parts)
        × (0 < writer_blank.parts) }
{
    let narrow = Narrow {
        taken: Vec::new(alloc),
        limit: usize::MAX,
    };
    let mut reader = CountedReader::<_, L>::new(Pieces::whole(script), reader_blank);
    let mut writer = CountedWriter::<_, M>::new(narrow, writer_blank);
    let answered = run_seen(
        rt,
        alloc,
        entries,
        64,
        &mut reader,
        &mut writer,
        post,
        publisher,
        listener,
    );
    (answered, writer.into_inner().taken)
}

/// The same, with ledgers of its own.
fn answer_alone<P: Post, B: Wait>(
    rt: &impl Wait,
    alloc: Global,
    entries: &Entries,
    script: &[u8],
    post: &mut P,
    publisher: &mut Publisher<B>,
    listener: &mut impl Listener,
) -> (Result<u64, RunFault>, Vec<u8>)
    requires { IsFresh (P.view post.old) entries.now }
{
    answer_shown::<_, _, Brand, Brand>(
        rt,
        alloc,
        entries,
        script,
        post,
        publisher,
        listener,
        Blank::new(1),
        Blank::new(1),
    )
}

// The script is answered as without viewers, each snapshot is published, and no viewer sees an
// earlier revision after a later one.
#[test]
fn the_first_script_before_two_viewers(rt: HostRuntime) {
    let alloc = rt.alloc();
    let entries = Entries::new(alloc).expect(&rt, "memory");
    let desk = Desk::open(alloc, &entries, 1).expect(&rt, "memory");
    let opening = snapshot(alloc, &desk).expect(&rt, "memory");
    let (mut publisher, mut viewers) = board(&rt, alloc, opening, 2).expect(&rt, "a board");
    let one = viewers.pop().expect(&rt, "a viewer");
    let other = viewers.pop().expect(&rt, "a viewer");
    let one = thread::spawn(&rt, move || watch(one)).expect(&rt, "a thread");
    let other = thread::spawn(&rt, move || watch(other)).expect(&rt, "a thread");
    let mut post = InlinePost::new(alloc, &entries, SQUARES);
    let mut listener = Looks {
        viewer: None,
        seen: Vec::new(alloc),
    };
    let (answered, told) = answer_shown::<_, _, Brand, Brand>(
        &rt,
        alloc,
        &entries,
        FIRST,
        &mut post,
        &mut publisher,
        &mut listener,
        Blank::new(1),
        Blank::new(1),
    );
    same(&rt, &answered, &Ok(0), &"answered");
    same(&rt, &told.as_slice(), &FIRST_REPLIES, &"told");
    let wanted = Watched {
        last: LAST,
        fell: false,
    };
    same(&rt, &one.join(&rt), &wanted, &"one");
    same(&rt, &other.join(&rt), &wanted, &"other");
    publisher.end();
}

/// The settling has three jobs: the text of the second bookmark, which needs no step, the step to
/// generation 1, and the text of the first bookmark.
const THREE_JOBS: &[u8] = b"\
    set 0 0 1\n\
    mark 1 counts\n\
    mark 0 counts\n\
    settle\n\
    quit\n";

// A settling is shown as it begins and after each answer, and then the reply's own snapshot comes:
// with the opening one and those of the three edits the history has nine.
#[test]
fn a_settling_is_shown_answer_by_answer(rt: HostRuntime) {
    let alloc = rt.alloc();
    let entries = Entries::new(alloc).expect(&rt, "memory");
    let desk = Desk::open(alloc, &entries, 1).expect(&rt, "memory");
    let opening = snapshot(alloc, &desk).expect(&rt, "memory");
    let (mut publisher, mut viewers) = board(&rt, alloc, opening, 2).expect(&rt, "a board");
    let mut post = LooksOn {
        inner: InlinePost::new(alloc, &entries, SQUARES),
        viewer: viewers.pop(),
        seen: Vec::new(alloc),
    };
    let mut listener = Looks {
        viewer: viewers.pop(),
        seen: Vec::new(alloc),
    };
    let (answered, told) = answer_alone(
        &rt,
        alloc,
        &entries,
        THREE_JOBS,
        &mut post,
        &mut publisher,
        &mut listener,
    );
    same(&rt, &answered, &Ok(0), &"answered");
    let replies: &[u8] = b"\
        ok 1\n\
        ok 2 bookmark 1\n\
        ok 3 bookmark 2\n\
        settled\n\
        bye\n";
    same(&rt, &told.as_slice(), &replies, &"told");
    // Before the first answer, the second and the third.
    let answers: &[u8] = b"5--\n6-+\n7-+\n";
    same(&rt, &post.seen.as_slice(), &answers, &"answers");
    // Before the settling, and behind its last answer.
    let rung: &[u8] = b"4--\n8++\n";
    same(&rt, &listener.seen.as_slice(), &rung, &"rung");
    same(&rt, &publisher.receipt().position(), &9, &"position");
    publisher.end();
}
