//! The line.
ghost use Rattle.std.specs.Prelude.{◌≡◌, ◌≤◌, count_by};
ghost use Rattle.desk_program.specs.Line.{is_current, line_of};

use desk_board::{ShownRow, Snapshot};
use std::fmt;

/// How far a settling is: of which revision, how many of all bookmarks are current, and how many
/// seconds it takes already.
#[derive(Clone, Copy, Debug, PartialEq, Eq)]
pub struct Line {
    pub revision: u64,
    pub current: u64,
    pub all: u64,
    pub seconds: u64,
}

impl fmt::Display for Line {
    ghost use Rattle.std.specs.Prelude.{Some};
    ghost use Rattle.desk_program.specs.Line.{line_text};

    ghost output = { λ line. Some (line_text line.revision line.current line.all line.seconds) };

    fn fmt<W: fmt::Write>(&self, f: &mut fmt::Formatter<W>) -> fmt::Result {
        let revision = self.revision;
        let current = self.current;
        let all = self.all;
        let seconds = self.seconds;
        write!(
            f,
            "revision {revision}: {current} of {all} bookmarks are current, {seconds} s"
        )
    }
}

// How many of the bookmarks have a text.
fn current_count(rows: &[ShownRow]) -> usize
    ensures { result ≡ count_by is_current rows.now }
{
    let mut current = 0;
    for row in rows {
        if row.text.is_some() {
            current += 1;
        }
    }
    current
}

impl Line {
    /// The line for what a snapshot shows, and so many seconds.
    pub(crate) fn of(snapshot: &Snapshot, seconds: u64) -> Line
        ensures { result ≡ line_of snapshot.now seconds }
    {
        let rows = snapshot.rows();
        Line {
            revision: snapshot.document().revision(),
            current: current_count(rows) as u64,
            all: rows.len() as u64,
            seconds,
        }
    }
}
