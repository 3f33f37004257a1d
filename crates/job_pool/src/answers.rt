//! The channel that brings answers back.
ghost use Rattle.std.specs.Prelude.{◌≡◌, ◌≤◌, All, IfOk, IfSome, Some, vec_len};
ghost use Rattle.crossbeam_channel.specs.Claims.{view, IsSeatAt};
ghost use Rattle.crossbeam_channel.specs.Ends.{sends_on};
ghost use Rattle.revision_jobs.specs.Posted.{IsOwnAnswer};
ghost use Rattle.job_pool.specs.Home.{terms_in, terms_of};

use crate::answer_rule::{MakesEnd, NamesTerms, Naming, OfTable, Passes, Terms};
use crossbeam_channel::{Pass, RuledReceiver, RuledSender, TryRecvError, bounded_with};
use revision_jobs::{Entries, Worked};
use std::alloc::{AllocError, Global};
use std::marker::{Brand, Model};
use std::sync::Wait;

/// How many answers may wait.
const CAPACITY: usize = 32;

/// A worker's end. Contracts see the table of its answers, and their limit.
#[derive(Drop)]
pub(crate) struct AnswerSender {
    end: RuledSender<Worked, Option<Terms>, OfTable>,
    pass: Pass<Worked, Option<Terms>>,
}

impl Model for AnswerSender {
    ghost use Rattle.std.specs.Prelude.{◌≡◌, Some};
    ghost use Rattle.crossbeam_channel.specs.Claims.{view as known, IsSeatAt};
    ghost use Rattle.crossbeam_channel.specs.Ends.{sends_on};
    ghost use Rattle.job_pool.specs.declared.answer_rule.Terms.{Terms};
    ghost use Rattle.job_pool.specs.Home.{terms_in};

    ghost Value = { Terms };

    ghost view = { λ s. terms_in (known s.pass) };

    ghost invariant = { λ s. IsSeatAt (sends_on s.end) s.pass
        × (known s.pass ≡ Some (terms_in (known s.pass))) };
}

/// The post's end. Contracts see the table of its answers, and their limit.
#[derive(Drop)]
pub(crate) struct AnswerReceiver {
    end: RuledReceiver<Worked, Option<Terms>, OfTable>,
    pass: Pass<Worked, Option<Terms>>,
}

impl Model for AnswerReceiver {
    ghost use Rattle.std.specs.Prelude.{◌≡◌, Some};
    ghost use Rattle.crossbeam_channel.specs.Claims.{view as known, IsSeatAt};
    ghost use Rattle.crossbeam_channel.specs.Ends.{receives_on};
    ghost use Rattle.job_pool.specs.declared.answer_rule.Terms.{Terms};
    ghost use Rattle.job_pool.specs.Home.{terms_in};

    ghost Value = { Terms };

    ghost view = { λ r. terms_in (known r.pass) };

    ghost invariant = { λ r. IsSeatAt (receives_on r.end) r.pass
        × (known r.pass ≡ Some (terms_in (known r.pass))) };
}

impl AnswerSender {
    /// Sends an answer back. It is dropped where nobody waits for it any more. It waits while 32
    /// answers wait.
    pub(crate) fn send<R: Wait>(&mut self, rt: &R, answer: Worked)
        requires { IsOwnAnswer self.old.table self.old.limit answer }
        ensures { self.new ≡ self.old }
    {
        let _sent = self.end.send_as::<Passes, R>(rt, &mut self.pass, answer);
    }
}

impl AnswerReceiver {
    /// The next answer. It waits while there is none, and is Disconnected where none is and no
    /// worker is left.
    pub(crate) fn receive<R: Wait>(&mut self, rt: &R) -> Result<Worked, TryRecvError>
        ensures same { self.new ≡ self.old }
        ensures own { IfOk result (IsOwnAnswer self.old.table self.old.limit) }
    {
        match self.end.recv_as::<Passes, R>(rt, &mut self.pass) {
            Ok(answer) => Ok(answer),
            Err(_) => Err(TryRecvError::Disconnected),
        }
    }

    /// The next answer, if there is one already: Empty where there is none, and Disconnected where
    /// no worker is left either.
    pub(crate) fn try_receive<R: Wait>(&mut self, rt: &R) -> Result<Worked, TryRecvError>
        ensures same { self.new ≡ self.old }
        ensures own { IfOk result (IsOwnAnswer self.old.table self.old.limit) }
    {
        self.end.try_recv_as::<Passes, R>(rt, &mut self.pass)
    }
}

/// A channel for answers of the table and at the limit, with so many senders.
pub(crate) fn answer_queue(
    alloc: Global,
    entries: &Entries,
    limit: u32,
    senders: u8,
) -> Result<(Vec<AnswerSender>, AnswerReceiver), AllocError>
    ensures count { IfOk result (λ ends. vec_len ends.0 ≡ senders) }
    ensures senders { IfOk result (λ ends.
        All (λ s. s ≡ terms_of entries.now limit) ends.0.items) }
    ensures receiver { IfOk result (λ ends. ends.1 ≡ terms_of entries.now limit) }
{
    queue_of::<Brand>(alloc, entries, limit, senders)
}

// A channel whose terms have a name.
fn queue_of<K: Naming>(
    alloc: Global,
    entries: &Entries,
    limit: u32,
    senders: u8,
) -> Result<(Vec<AnswerSender>, AnswerReceiver), AllocError>
    requires { K.terms ≡ terms_of entries.now limit }
    ensures count { IfOk result (λ ends. vec_len ends.0 ≡ senders) }
    ensures senders { IfOk result (λ ends.
        All (λ s. s ≡ terms_of entries.now limit) ends.0.items) }
    ensures receiver { IfOk result (λ ends. ends.1 ≡ terms_of entries.now limit) }
{
    let mut all = Vec::new(alloc);
    let (end, from, mut pass) = bounded_with::<Worked, Option<Terms>, OfTable, Global>(
        alloc, CAPACITY,
    )?;
    let theirs = end.another::<NamesTerms<K>>(&mut pass);
    let receiver = AnswerReceiver {
        end: from,
        pass: theirs,
    };
    'senders: for made in 0..senders {
        all.push(another_sender(&end, &mut pass)?)?;
    }
    Ok((all, receiver))
}

// Another sender of the channel.
fn another_sender(
    end: &RuledSender<Worked, Option<Terms>, OfTable>,
    pass: &mut Pass<Worked, Option<Terms>>,
) -> Result<AnswerSender, AllocError>
    requires queue { IsSeatAt (sends_on end.now) pass.old }
    requires tabled { view pass.old ≡ Some (terms_in (view pass.old)) }
    ensures pass { IsSeatAt (sends_on end.now) pass.new × (view pass.new ≡ view pass.old) }
    ensures sender { IfOk result (λ s. s ≡ terms_in (view pass.old)) }
{
    let theirs = end.another::<MakesEnd>(pass);
    Ok(AnswerSender {
        end: end.try_clone()?,
        pass: theirs,
    })
}
