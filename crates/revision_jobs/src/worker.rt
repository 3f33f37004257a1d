//! Working a job.
ghost use Rattle.std.specs.Prelude.{◌≡◌, Err, IfOk, Ok};
ghost use Rattle.std.specs.Arc.{arc_value};
ghost use Rattle.worlds.specs.Stop.{CountsStop};
ghost use Rattle.rule_tree.specs.Rule.{AreAlike};
ghost use Rattle.revision_jobs.specs.Answer.{IsRightAnswer, outcome_of};
ghost use Rattle.revision_jobs.specs.Entries.{IsOf, entry_of};
ghost use Rattle.revision_jobs.specs.Room.{HasNoRoom, IsStepSpent};
ghost use Rattle.revision_jobs.specs.Serving.{CanServe, EngineComputes};
ghost use Rattle.revision_jobs.specs.Value.{
  CanBeRendered,
  CanBeStepped,
  CanBeWorked,
  bytes_of,
  pattern,
  start_of,
  text,
  value,
  world_after,
};

use crate::answer::{Answer, Job, Outcome};
use crate::entries::Entries;
use crate::entry::{Entry, Rendering, Step};
use crate::gate::Gate;
use crate::laid::Laid;
use basics::Listing;
use bookmarks::render;
use bumpalo::Bump;
use plane_core::{Plane, Stop};
use rule_tree::Rule;
use std::alloc::{AllocError, Global};
use std::sync::Arc;
use step_engine::{Engine, EvolveFault};

/// Works a job of this table's, between the gate's two calls. A step may keep at most `limit`
/// squares, and never more than 16,777,216, and the answer names that limit.
///
/// The answer has the value of the job's entry, or says why there is none: NoRoom where a step
/// would need more squares, and so would a 4,096th of it, Stopped where the stop said yes, NoMemory
/// where a growth was refused.
pub fn work<G: Gate, S: Stop>(
    alloc: Global,
    job: Job,
    entries: &Entries,
    gate: &mut G,
    stop: &mut S,
    limit: u32,
) -> Answer
    requires { IsOf entries.now job.place }
    ensures named { (result.job ≡ job) × (result.limit ≡ limit) }
    ensures right { IsRightAnswer result.job result.limit result.outcome }
    ensures room { result.outcome ≡ Err EvolveFault.NoRoom → HasNoRoom limit (entry_of job.place) }

    // It gave up for a stop exactly where the stop said yes.
    ensures stop { CountsStop result.outcome (Err EvolveFault.Stopped)
        (S.yes_count stop.old) (S.yes_count stop.new) }
{
    gate.begin(job.number);
    let outcome = match computed(alloc, entries.at(&job.place), stop, limit) {
        Ok(outcome) => outcome,
        Err(fault) => Outcome::Gave(fault),
    };
    gate.end(job.number);
    Answer {
        job,
        limit,
        outcome,
    }
}

/// Works a job as `work` does, by an engine for the rule of its entry, which keeps its squares and
/// their results for later jobs. A step may keep as many squares as the engine may hold, and the
/// answer names that limit.
pub fn work_by<G: Gate, S: Stop>(
    alloc: Global,
    engine: &mut Engine<'_, Rule>,
    job: Job,
    entries: &Entries,
    gate: &mut G,
    stop: &mut S,
) -> Answer
    requires { CanServe engine.old.rule entries.now job }
    ensures named { (result.job ≡ job) × (result.limit ≡ engine.old.limit) }
    ensures right { IsRightAnswer result.job result.limit result.outcome }
    ensures room { result.outcome ≡ Err EvolveFault.NoRoom →
        HasNoRoom engine.old.limit (entry_of job.place) }
    ensures stop { CountsStop result.outcome (Err EvolveFault.Stopped)
        (S.yes_count stop.old) (S.yes_count stop.new) }
    ensures engine { engine.new ≡ engine.old }
{
    gate.begin(job.number);
    let outcome = match computed_by(alloc, engine, entries.at(&job.place), stop) {
        Ok(outcome) => outcome,
        Err(fault) => Outcome::Gave(fault),
    };
    gate.end(job.number);
    Answer {
        job,
        limit: engine.limit(),
        outcome,
    }
}

// The value of an entry, by an engine that is made for it.
fn computed<S: Stop>(
    alloc: Global,
    entry: &Entry,
    stop: &mut S,
    limit: u32,
) -> Result<Outcome, EvolveFault>
    requires { CanBeWorked entry.now }
    ensures value { IfOk result (λ outcome. outcome_of outcome ≡ Ok (value entry.now)) }
    ensures room { result ≡ Err EvolveFault.NoRoom → HasNoRoom limit entry.now }
    ensures stop { CountsStop result (Err EvolveFault.Stopped)
        (S.yes_count stop.old) (S.yes_count stop.new) }
{
    match entry {
        Entry::Step(step) => {
            let arena = Bump::new(alloc);
            let mut engine = Engine::new(alloc, &arena, &*step.rule, limit)?;
            stepped(alloc, &mut engine, step, stop)
        }
        Entry::View(rendering) => Ok(rendered(alloc, rendering)?),
    }
}

// The value of an entry, by an engine that serves it.
fn computed_by<S: Stop>(
    alloc: Global,
    engine: &mut Engine<'_, Rule>,
    entry: &Entry,
    stop: &mut S,
) -> Result<Outcome, EvolveFault>
    requires { CanBeWorked entry.now × EngineComputes engine.old.rule entry.now }
    ensures value { IfOk result (λ outcome. outcome_of outcome ≡ Ok (value entry.now)) }
    ensures room { result ≡ Err EvolveFault.NoRoom → HasNoRoom engine.old.limit entry.now }
    ensures stop { CountsStop result (Err EvolveFault.Stopped)
        (S.yes_count stop.old) (S.yes_count stop.new) }
    ensures engine { engine.new ≡ engine.old }
{
    match entry {
        Entry::Step(step) => stepped(alloc, engine, step, stop),
        Entry::View(rendering) => Ok(rendered(alloc, rendering)?),
    }
}

// The pattern that comes of a step, by an engine that does as its rule.
fn stepped<S: Stop>(
    alloc: Global,
    engine: &mut Engine<'_, Rule>,
    step: &Step,
    stop: &mut S,
) -> Result<Outcome, EvolveFault>
    requires { CanBeStepped step.now × AreAlike engine.old.rule (arc_value step.now.rule) }
    ensures value { IfOk result
        (λ outcome. outcome_of outcome ≡ Ok (pattern (world_after step.now))) }
    ensures room { result ≡ Err EvolveFault.NoRoom → IsStepSpent engine.old.limit step.now }
    ensures stop { CountsStop result (Err EvolveFault.Stopped)
        (S.yes_count stop.old) (S.yes_count stop.new) }
    ensures engine { engine.new ≡ engine.old }
{
    if step.gens == 0 {
        return Ok(Outcome::Plane(begun(alloc, step)?));
    }
    let laid = Laid::on(&step.from, step.cells.as_slice())?;
    let plane = engine.evolve_in_pieces(laid.plane(), step.gens, stop)?;
    Ok(Outcome::Plane(shared(alloc, plane)?))
}

// The pattern on which a step's cells are laid, which is the same one where there are none.
fn begun(alloc: Global, step: &Step) -> Result<Arc<Plane>, AllocError>
    requires { CanBeStepped step.now }
    ensures { IfOk result (λ plane. arc_value plane ≡ start_of step.now) }
{
    let cells = step.cells.as_slice();
    if cells.is_empty() {
        return Arc::try_clone(&step.from);
    }
    shared(alloc, step.from.lay(cells)?)
}

// The text of a view.
fn rendered(alloc: Global, rendering: &Rendering) -> Result<Outcome, AllocError>
    requires { CanBeRendered rendering.now }
    ensures { IfOk result (λ outcome. outcome_of outcome ≡ Ok (text (bytes_of rendering.now))) }
{
    let laid = Laid::on(&rendering.from, rendering.cells.as_slice())?;
    let text = render(
        alloc,
        &rendering.view,
        laid.plane(),
        rendering.name.as_slice(),
        rendering.states,
        rendering.generation,
    )?;
    Ok(Outcome::Text(shared(alloc, Listing::from_vec(text))?))
}

fn shared<T: Drop>(alloc: Global, value: T) -> Result<Arc<T>, AllocError>
    ensures { IfOk result (λ shared. arc_value shared ≡ value) }
{
    Ok(Arc::new(alloc, value)?)
}
