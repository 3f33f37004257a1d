//! A taker that is dropped with the job that it took.
ghost use Rattle.std.specs.Prelude.{◌≡◌};

use super::changes::{Change, edit_of};
use super::same;
use desk_core::{Collected, Desk, Entries, NoGate, Sent, Shown, work};
use job_queue::{JobSender, JobTaker, job_queue};
use std::alloc::Global;
use std::process::Abort;
use std::sync::Wait;

/// A desk, the end to which its jobs are offered, and a taker of them.
#[derive(Drop)]
struct Line<'e> {
    alloc: Global,
    entries: &'e Entries,
    desk: Desk<'e>,
    sender: JobSender,
    taker: JobTaker,
    ghost own: { desk.table ≡ entries.now },
    ghost sending: { sender.table ≡ entries.now },
    ghost taking: { taker.table ≡ entries.now },
}

impl<'e> Line<'e> {
    fn edit(&mut self, rt: &impl Abort, change: Change) {
        let edit = edit_of(rt, self.alloc, change);
        let _edited = self.desk.edit(&edit).expect(rt, "an accepted edit");
    }

    /// Issues the job of this number and offers it.
    fn offers<R: Abort + Wait>(&mut self, rt: &R, number: u32) {
        let issued = self.desk.issue(rt).expect(rt, "memory");
        let job = issued.expect(rt, "a job");
        same(rt, &job.number, &number, &"issued");
        assert!(rt;
            self.sender.floor() <= u64::from(job.number),
            "a number below the floor"
        );
        match self.sender.offer(rt, job) {
            Sent::Taken => {}
            Sent::Full(_) | Sent::Closed(_) => panic!(rt; "not taken"),
        }
    }

    /// Takes the job of this number and works it, and its answer is accepted.
    fn works<R: Abort + Wait>(&mut self, rt: &R, number: u32) {
        let job = self.taker.take(rt).expect(rt, "a job");
        same(rt, &job.number, &number, &"taken");
        let mut stop = self.entries.stop(&job.place);
        let answer = work(self.alloc, job, self.entries, &mut NoGate, &mut stop, 4096);
        same(
            rt,
            &self.desk.collect(answer),
            &Collected::Accepted,
            &number,
        );
    }
}

/// The job of this number is taken by a taker that is dropped with it.
fn is_lost_with<R: Abort + Wait>(rt: &R, mut taker: JobTaker, number: u32) {
    let job = taker.take(rt).expect(rt, "a job");
    same(rt, &job.number, &number, &"lost");
}

/// The end to which jobs are offered, a taker to keep and one to drop.
fn queue_of_two(
    rt: &impl Abort,
    alloc: Global,
    entries: &Entries,
) -> (JobSender, JobTaker, JobTaker)
    ensures { (result.0.table ≡ entries.now) × (result.1.table ≡ entries.now) }
{
    let (sender, mut takers) = job_queue(alloc, entries, 2).expect(rt, "memory");
    let kept = takers.pop().expect(rt, "a taker");
    let dropped = takers.pop().expect(rt, "a taker");
    (sender, kept, dropped)
}

#[test]
fn job_of_a_dropped_taker_is_issued_anew(rt: HostRuntime) {
    let alloc = rt.alloc();
    let entries = Entries::new(alloc).expect(&rt, "memory");
    let (sender, taker, dropped) = queue_of_two(&rt, alloc, &entries);
    let mut line = Line {
        alloc,
        entries: &entries,
        desk: Desk::open(alloc, &entries, 1).expect(&rt, "memory"),
        sender,
        taker,
    };
    line.edit(&rt, Change::Rule);
    line.edit(&rt, Change::Set(&[(0, 0, 1)]));
    line.edit(&rt, Change::Mark(8));
    line.offers(&rt, 0);
    is_lost_with(&rt, dropped, 0);
    same(&rt, &line.desk.cancel(0), &true, &"out");
    line.offers(&rt, 1);
    line.works(&rt, 1);
    line.offers(&rt, 2);
    line.works(&rt, 2);
    let wanted = Shown::Current("1 2\n".as_bytes());
    same(&rt, &line.desk.shown(1), &wanted, &"shown");
}
