//! What is written where, and the endings.
mod progress;

use desk_program::{
    Devices, Ending, OptionFault, RunFault, Terminals, greeting, report, start, tell,
};
use std::alloc::Global;
use std::cell::Cell;
use std::fmt::{Debug, Display};
use std::io;
use std::io::{Read, Write};
use std::marker::Brand;
use std::process::{Abort, ExitCode};
use std::sync::Wait;
use std::sync::ledger::Blank;
use std::thread::Threads;
use std::time::Clock;

fn same<T: PartialEq + Debug, A: Debug>(rt: &impl Abort, found: &T, wanted: &T, at: &A) {
    assert_eq!(rt; *found, *wanted, "at {at:?}");
}

// Standard output and standard error that keep what they are given last, and take it or not.
#[derive(Drop)]
struct Outputs {
    alloc: Global,
    out: Cell<Option<String>>,
    err: Cell<Option<String>>,
    fails: bool,
}

impl Outputs {
    fn new(alloc: Global, fails: bool) -> Outputs {
        Outputs {
            alloc,
            out: Cell::new(None),
            err: Cell::new(None),
            fails,
        }
    }

    // A second text takes the place of the first, behind a mark.
    fn take<D: Display>(
        &self,
        device: &Cell<Option<String>>,
        value: &D,
        end: &str,
    ) -> io::Result<()> {
        let before = if device.replace(None).is_some() {
            "again "
        } else {
            ""
        };
        let text = format!(in self.alloc; "{before}{value}{end}")?;
        device.set(Some(text));
        if self.fails {
            return Err(io::Error::from(io::ErrorKind::BrokenPipe));
        }
        Ok(())
    }
}

impl Print for Outputs {
    fn print<D: Display + Drop>(&self, value: D) -> io::Result<()> {
        self.take(&self.out, &value, "")
    }

    fn println<D: Display + Drop>(&self, value: D) -> io::Result<()> {
        self.take(&self.out, &value, "\n")
    }

    fn write_all(&self, _bytes: &[u8]) -> io::Result<()> {
        self.take(&self.out, &"bytes", "")
    }
}

impl Eprint for Outputs {
    fn eprint<D: Display + Drop>(&self, value: D) -> io::Result<()> {
        self.take(&self.err, &value, "")
    }

    fn eprintln<D: Display + Drop>(&self, value: D) -> io::Result<()> {
        self.take(&self.err, &value, "\n")
    }
}

// The outputs hold these texts.
fn hold(rt: &impl Abort, outputs: &Outputs, out: Option<&str>, err: Option<&str>) {
    same(rt, &outputs.out.replace(None).as_deref(), &out, &"out");
    same(rt, &outputs.err.replace(None).as_deref(), &err, &"err");
}

// A device that fails at once.
#[derive(Drop)]
struct Broken;

impl Read for Broken {
    fn read(&mut self, _buf: &mut [u8]) -> io::Result<usize> {
        Err(io::Error::from(io::ErrorKind::BrokenPipe))
    }
}

impl Write for Broken {
    fn write(&mut self, _buf: &[u8]) -> io::Result<usize> {
        Err(io::Error::from(io::ErrorKind::BrokenPipe))
    }

    fn flush(&mut self) -> io::Result<()> {
        Err(io::Error::from(io::ErrorKind::BrokenPipe))
    }
}

// What is told of a fault of the words: the ending, and what each device is given.
fn is_told(
    rt: &impl Abort,
    alloc: Global,
    fault: &OptionFault,
    fails: bool,
    ending: Ending,
    out: Option<&str>,
    err: Option<&str>,
) {
    let outputs = Outputs::new(alloc, fails);
    same(rt, &report(&outputs, fault), &ending, &fails);
    hold(rt, &outputs, out, err);
}

fn text(rt: &impl Abort, alloc: Global) -> String {
    String::from_str(alloc, "text\n").expect(rt, "memory")
}

#[test]
fn texts_are_written_where_they_belong(rt: HostRuntime) {
    let alloc = rt.alloc();
    let written = Some("text\n");
    let unwritten = Ending::Failed(RunFault::Write);
    let help = OptionFault::Help(text(&rt, alloc));
    is_told(&rt, alloc, &help, false, Ending::Done, written, None);
    is_told(&rt, alloc, &help, true, unwritten, written, None);
    let version = OptionFault::Version(text(&rt, alloc));
    is_told(&rt, alloc, &version, false, Ending::Done, written, None);
    is_told(&rt, alloc, &version, true, unwritten, written, None);
    let refused = OptionFault::Refused(text(&rt, alloc));
    is_told(&rt, alloc, &refused, false, Ending::Refused, None, written);
    is_told(&rt, alloc, &refused, true, Ending::Refused, None, written);
    let want = Ending::Failed(RunFault::NoMemory);
    is_told(&rt, alloc, &OptionFault::NoMemory, false, want, None, None);
}

fn tells(
    rt: &impl Abort,
    alloc: Global,
    ending: Ending,
    status: u8,
    line: Option<&str>,
    fails: bool,
) {
    let outputs = Outputs::new(alloc, fails);
    same(
        rt,
        &tell(&outputs, ending),
        &ExitCode::from(status),
        &ending,
    );
    hold(rt, &outputs, None, line);
}

// An ending has this status and this line, whether or not standard error takes it.
fn ends(rt: &impl Abort, alloc: Global, ending: Ending, status: u8, line: Option<&str>) {
    tells(rt, alloc, ending, status, line, false);
    tells(rt, alloc, ending, status, line, true);
}

#[test]
fn each_ending_has_its_status_and_its_line(rt: HostRuntime) {
    let alloc = rt.alloc();
    ends(&rt, alloc, Ending::Done, 0, None);
    let read = Ending::Failed(RunFault::Read);
    ends(&rt, alloc, read, 1, Some("desk: reading failed\n"));
    let write = Ending::Failed(RunFault::Write);
    ends(&rt, alloc, write, 1, Some("desk: writing failed\n"));
    ends(&rt, alloc, Ending::Refused, 2, None);
    let memory = Ending::Failed(RunFault::NoMemory);
    ends(&rt, alloc, memory, 3, Some("desk: no memory\n"));
    ends(&rt, alloc, Ending::NoWorker, 3, Some("desk: no worker\n"));
}

fn words_of(rt: &impl Abort, alloc: Global, word: &str) -> Vec<String> {
    let mut words = Vec::new(alloc);
    words.push(text(rt, alloc)).expect(rt, "memory");
    if !word.is_empty() {
        words
            .push(String::from_str(alloc, word).expect(rt, "memory"))
            .expect(rt, "memory");
    }
    words
}

// The program's status with this word, and what the writer then holds, where the script isn't typed.
fn started<R: Read + Drop, W: Write + Drop>(
    rt: &(impl Abort + Threads + Wait + Clock + Eprint + Sync),
    outputs: &Outputs,
    word: &str,
    reader: R,
    writer: W,
) -> (ExitCode, W) {
    begun(rt, outputs, word, false, reader, writer)
}

fn begun<R: Read + Drop, W: Write + Drop>(
    rt: &(impl Abort + Threads + Wait + Clock + Eprint + Sync),
    outputs: &Outputs,
    word: &str,
    is_typed: bool,
    reader: R,
    writer: W,
) -> (ExitCode, W) {
    let words = Ok(words_of(rt, outputs.alloc, word));
    let (status, _, written) = start::<_, _, _, _, Brand, Brand>(
        rt,
        outputs,
        outputs.alloc,
        &words,
        Terminals {
            input: is_typed,
            error: false,
        },
        Devices {
            reader,
            writer,
            reader_blank: Blank::new(1),
            writer_blank: Blank::new(1),
        },
    );
    (status, written)
}

fn answers(
    rt: &(impl Abort + Threads + Wait + Clock + Eprint + Sync),
    alloc: Global,
    word: &str,
    script: &[u8],
    status: u8,
    wanted: &[u8],
) {
    let outputs = Outputs::new(alloc, false);
    let (found, written) = started(rt, &outputs, word, script, Vec::new(alloc));
    same(rt, &found, &ExitCode::from(status), &word);
    same(rt, &written.as_slice(), &wanted, &word);
}

#[test]
fn words_come_before_the_script(rt: HostRuntime) {
    let alloc = rt.alloc();
    answers(&rt, alloc, "", b"quit\n", 0, b"bye\n");
    answers(&rt, alloc, "--squares=64", b"quit\n", 0, b"bye\n");
    answers(&rt, alloc, "--workers=8", b"quit\n", 0, b"bye\n");
    answers(&rt, alloc, "--workers=9", b"quit\n", 2, b"");
    answers(&rt, alloc, "--facts=1", b"quit\n", 0, b"bye\n");
    answers(&rt, alloc, "--squares=63", b"quit\n", 2, b"");
    answers(&rt, alloc, "--progress", b"quit\n", 0, b"bye\n");
    answers(&rt, alloc, "--help", b"quit\n", 0, b"");
    answers(&rt, alloc, "--version", b"quit\n", 0, b"");
    answers(&rt, alloc, "work", b"quit\n", 2, b"");
}

// The program's status with the word for the version, and its line on standard error.
fn says_version(
    rt: &(impl Abort + Threads + Wait + Clock + Eprint + Sync),
    alloc: Global,
    fails: bool,
    status: u8,
    err: Option<&str>,
) {
    let outputs = Outputs::new(alloc, fails);
    let (found, _) = started(rt, &outputs, "--version", Broken, Broken);
    same(rt, &found, &ExitCode::from(status), &fails);
    hold(rt, &outputs, Some("desk 1.0.0 (proved)\n"), err);
}

#[test]
fn the_version_is_one_line(rt: HostRuntime) {
    let alloc = rt.alloc();
    says_version(&rt, alloc, false, 0, None);
    says_version(&rt, alloc, true, 1, Some("desk: writing failed\n"));
}

// Cells far from each other: 64 squares are too few for their step.
const WIDE: &[u8] = b"\
    set 0 0 1 1000 0 1 3000 7 1 7000 90 1 20000 300 1 -9999 -9999 1\n\
    mark 1 counts\n\
    settle\n";

#[test]
fn words_choose_the_squares(rt: HostRuntime) {
    let alloc = rt.alloc();
    let settled = b"ok 1\nok 2 bookmark 1\nsettled\n";
    let unsettled = b"ok 1\nok 2 bookmark 1\nunsettled 1 71\n";
    answers(&rt, alloc, "", WIDE, 0, settled);
    answers(&rt, alloc, "--squares=1000", WIDE, 0, settled);
    answers(&rt, alloc, "--squares=64", WIDE, 0, unsettled);
}

// Three bookmarks over cells far from each other, settled twice with an edit between.
const EDITED: &[u8] = b"\
    set 0 0 1 1000 0 1\n\
    mark 1 counts\n\
    mark 1 rle\n\
    mark 5 counts\n\
    settle\n\
    at 3 set 7 7 1\n\
    settle\n\
    show 1\n\
    show 3\n";

// An intervention while the step to generation 8 is worked.
const WORKED: &[u8] = b"\
    rule\n\
    @RULE X\n\
    @TABLE\n\
    n_states:2\n\
    neighborhood:oneDimensional\n\
    symmetries:none\n\
    0,1,0,1\n\
    0,0,1,1\n\
    1,0,0,0\n\
    1,1,1,0\n\
    end\n\
    set 0 0 1\n\
    mark 8 counts\n\
    work\n\
    at 4 set 0 0 1\n\
    settle\n\
    show 1\n";

// The script has these replies with 1, 2 and 8 workers.
fn any_workers(
    rt: &(impl Abort + Threads + Wait + Clock + Eprint + Sync),
    alloc: Global,
    script: &[u8],
    wanted: &[u8],
) {
    answers(rt, alloc, "--workers=1", script, 0, wanted);
    answers(rt, alloc, "--workers=2", script, 0, wanted);
    answers(rt, alloc, "--workers=8", script, 0, wanted);
}

#[test]
fn any_workers_answer_the_same(rt: HostRuntime) {
    let alloc = rt.alloc();
    let wanted = b"\
        ok 1\n\
        ok 2 bookmark 1\n\
        ok 3 bookmark 2\n\
        ok 4 bookmark 3\n\
        settled\n\
        ok 5 intervention 1\n\
        settled\n\
        bookmark 1 current 4\n\
        1 2\n\
        bookmark 3 current 4\n\
        1 3\n";
    any_workers(&rt, alloc, EDITED, wanted);
    let wanted = b"\
        ok 1\n\
        ok 2\n\
        ok 3 bookmark 1\n\
        working\n\
        ok 4 intervention 1\n\
        settled\n\
        bookmark 1 current 4\n\
        1 4\n";
    any_workers(&rt, alloc, WORKED, wanted);
}

// A viewer's thread looks on, and what is written is the same.
#[test]
fn progress_changes_no_reply(rt: HostRuntime) {
    let alloc = rt.alloc();
    let wanted = b"\
        ok 1\n\
        ok 2 bookmark 1\n\
        ok 3 bookmark 2\n\
        ok 4 bookmark 3\n\
        settled\n\
        ok 5 intervention 1\n\
        settled\n\
        bookmark 1 current 4\n\
        1 2\n\
        bookmark 3 current 4\n\
        1 3\n";
    answers(&rt, alloc, "--progress", EDITED, 0, wanted);
    answers(
        &rt,
        alloc,
        "--progress",
        b"show 1\nquit\n",
        0,
        b"refused 44 NoSuchBookmark\nbye\n",
    );
    breaks(&rt, alloc, "--progress", 1);
}

// The program's status with this word, where both devices fail.
fn breaks(
    rt: &(impl Abort + Threads + Wait + Clock + Eprint + Sync),
    alloc: Global,
    word: &str,
    status: u8,
) {
    let outputs = Outputs::new(alloc, false);
    let (found, _) = started(rt, &outputs, word, Broken, Broken);
    same(rt, &found, &ExitCode::from(status), &word);
}

#[test]
fn words_come_before_the_devices(rt: HostRuntime) {
    let alloc = rt.alloc();
    breaks(&rt, alloc, "work", 2);
    breaks(&rt, alloc, "-h", 0);
    breaks(&rt, alloc, "-V", 0);
    breaks(&rt, alloc, "", 1);
}

#[test]
fn devices_fail(rt: HostRuntime) {
    let alloc = rt.alloc();
    let failed = ExitCode::from(1);
    let outputs = Outputs::new(alloc, false);
    let (unread, written) = started(&rt, &outputs, "", Broken, Vec::new(alloc));
    same(&rt, &unread, &failed, &"reader");
    same(&rt, &written.as_slice(), &b"".as_slice(), &"reader");
    hold(&rt, &outputs, None, Some("desk: reading failed\n"));
    let (unwritten, _) = started(&rt, &outputs, "", b"quit\n".as_slice(), Broken);
    same(&rt, &unwritten, &failed, &"writer");
    hold(&rt, &outputs, None, Some("desk: writing failed\n"));
}

#[test]
fn who_types_is_greeted(rt: HostRuntime) {
    let alloc = rt.alloc();
    let greeted =
        "desk: waiting for a script; most begin with `rule`, and `help` lists the commands";
    same(&rt, &greeting(true), &Some(greeted), &"typed");
    same(&rt, &greeting(false), &None, &"from a file");
    let outputs = Outputs::new(alloc, false);
    let (status, written) = begun(
        &rt,
        &outputs,
        "",
        true,
        b"quit\n".as_slice(),
        Vec::new(alloc),
    );
    same(&rt, &status, &ExitCode::from(0), &"typed");
    same(&rt, &written.as_slice(), &b"bye\n".as_slice(), &"typed");
    let line =
        "desk: waiting for a script; most begin with `rule`, and `help` lists the commands\n";
    hold(&rt, &outputs, None, Some(line));
    let (refused, _) = begun(&rt, &outputs, "work", true, b"".as_slice(), Vec::new(alloc));
    same(&rt, &refused, &ExitCode::from(2), &"refused");
}

const GREETING: &str =
    "desk: waiting for a script; most begin with `rule`, and `help` lists the commands\n";

// What is said behind the greeting.
const LISTS: &str = "again desk: `help` lists the commands\n";

const ENDS: &str =
    "again desk: this line belongs to the text, which ends at a line that is just `end`\n";

// The replies to a script that is typed or not, and what is said on standard error last.
fn typed(
    rt: &(impl Abort + Threads + Wait + Clock + Eprint + Sync),
    alloc: Global,
    is_typed: bool,
    script: &[u8],
    said: Option<&str>,
) -> Vec<u8> {
    let outputs = Outputs::new(alloc, false);
    let (status, written) = begun(rt, &outputs, "", is_typed, script, Vec::new(alloc));
    same(rt, &status, &ExitCode::from(0), &script);
    same(rt, &outputs.err.replace(None).as_deref(), &said, &script);
    written
}

// Something is said of a script where it is typed and nothing else, and the replies are the same.
fn says(
    rt: &(impl Abort + Threads + Wait + Clock + Eprint + Sync),
    alloc: Global,
    script: &[u8],
    said: &str,
) {
    let replies = typed(rt, alloc, false, script, None);
    let replies_to_typed = typed(rt, alloc, true, script, Some(said));
    same(
        rt,
        &replies_to_typed.as_slice(),
        &replies.as_slice(),
        &script,
    );
}

// Scripts of whose replies nothing is said: what is refused is no line that is no command.
const PLAIN: &[&[u8]] = &[
    b"show 1\nsettle\nquit\n",
    b"\
        help\n\
        rule\n\
        @RULE refused 80 BadCommand 1\n\
        end\n",
    b"\
        rule\n\
        @RULE X\n\
        @TABLE\n\
        refused 80 \n\
        n_states:2\n\
        end\n\
        script\n",
    b"rule\nend\n",
];

#[test]
fn who_types_no_command_is_told_of_help(rt: HostRuntime) {
    let alloc = rt.alloc();
    for script in PLAIN {
        says(&rt, alloc, script, GREETING);
    }
    says(&rt, alloc, b"paint 3\nquit\n", LISTS);
    says(&rt, alloc, b"settle\nhelp 1\n", LISTS);
    says(&rt, alloc, b"End\n", LISTS);
}

// Lines of texts that look like none.
const STRAY: &[&[u8]] = &[
    b"settle",
    b" show 1 \r",
    b"quit",
    b"help",
    b"rule",
    b"start mc",
    b"set 0 0 1",
    b"on 1 mark 4 rle",
    b"End",
    b"END",
    b"`end`",
    b"end.",
    b"edn",
    b"ned",
    b"nd",
    b"emd",
    b"eend",
    b"ends",
];

// Lines of texts, and such as nobody takes for anything else.
const TEXT: &[&[u8]] = &[
    b"",
    b"# settle",
    b"@RULE settle",
    b"n_states:2",
    b"var a={0,1}",
    b"0,a,0,1",
    b"1 0 0 0 0",
    b"x = 3, y = 3, rule = B3/S23",
    b"bo$2bo$3o!",
    b"OBO$EB!",
    b"oo",
    b"end of it",
    b"the end",
    b"settled",
    b"show",
];

// What is said of a line of this text.
fn says_in(
    rt: &(impl Abort + Threads + Wait + Clock + Eprint + Sync),
    alloc: Global,
    opening: &str,
    line: &[u8],
    said: &str,
) {
    let mut script = Vec::new(alloc);
    script
        .extend_from_slice(opening.as_bytes())
        .expect(rt, "memory");
    script.extend_from_slice(line).expect(rt, "memory");
    script
        .extend_from_slice(b"\n end \r\nsettle\n")
        .expect(rt, "memory");
    says(rt, alloc, &script, said);
}

#[test]
fn who_strays_in_a_text_is_told_of_its_end(rt: HostRuntime) {
    let alloc = rt.alloc();
    for line in STRAY {
        says_in(&rt, alloc, "rule\n", line, ENDS);
        says_in(&rt, alloc, "settle\n start  rle\nbo\n", line, ENDS);
    }
    for line in TEXT {
        says_in(&rt, alloc, "rule\n", line, GREETING);
        says_in(&rt, alloc, "start mc\r\n", line, GREETING);
    }
}
