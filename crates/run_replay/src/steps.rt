//! The steps of a run, and how it then stands, for every machine.

ghost use Rattle.std.specs.Prelude.{◌≡◌, ◌≤◌, List, [], ◌∷◌, ◌++◌, IfOk, OnOk, IsErrOf};
ghost use Rattle.c_lang.specs.Limits.{frame_limit};
ghost use Rattle.c_lang.specs.declared.event.Event.{Event};
ghost use Rattle.plain_run.specs.Moves.{events_of};
ghost use Rattle.plain_run.specs.Runs.{frame_count};
ghost use Rattle.run_replay.specs.Closes.{EndsWith, IsClose, IsEnd, IsLast, ShowsItsEnd};
ghost use Rattle.run_replay.specs.Code.After.{IsAfter, IsLive, RestsWhenOver, ShowsEnds};
ghost use Rattle.run_replay.specs.Replays.{IsRunClose, RunGetsDeep, RunStaysShallow};

use crate::replay::{Close, Replay};
use crate::stepping::Stepping;
use c_lang::Event;
use plain_run::{Answers, RunError, Step};
use std::alloc::{AllocError, Global};

// How a run stands whose last event is this one.
fn close_after(event: Event) -> Close
    requires { IsLast event }
    ensures { (front : List Event) → IsEnd (front ++ event ∷ []) result }
{
    match event {
        Event::Fault(_, _) => Close::Faulted,
        Event::End(_) | Event::Input(_) | Event::Output(_) | Event::Choice(_, _) => Close::Ended,
    }
}

// How a run stands that is over.
fn end_of(events: &[Event]) -> Close
    requires { (last : Event) × (EndsWith events.now last × IsLast last) }
    ensures { IsEnd events.now result }
{
    match events.last() {
        Some(event) => close_after(*event),
        None => Close::Ended,
    }
}

// How the run stands. The machine may have made a further step then. The only error is want of
// memory.
fn close_of<M: Stepping>(
    alloc: Global,
    machine: &mut M,
    answers: &mut Answers,
    events: &[Event],
) -> Result<Close, AllocError>
    requires shown { ShowsItsEnd (M.config machine.old) events.now }
    requires rests { RestsWhenOver (M.next machine.old) }
    ensures { IfOk result (λ close. IsClose (M.next machine.old (M.config machine.old)) answers.old events.now close) }
{
    match machine.advance(alloc, answers) {
        Ok(Step::Quiet) | Ok(Step::Shown(_)) | Err(RunError::Deep) => Ok(Close::Running),
        Ok(Step::Waiting) => Ok(Close::Waiting),
        Ok(Step::Stopped) => Ok(end_of(events)),
        Err(RunError::NoMemory) => Err(AllocError),
    }
}

// Makes this many steps, or fewer where the run then waits or is over.
fn make_steps<M: Stepping>(
    alloc: Global,
    machine: &mut M,
    answers: &mut Answers,
    events: &mut Vec<Event>,
    steps: u32,
) -> Result<(), RunError>
    requires start { IsAfter (M.next machine.old) (M.config machine.old) answers.old 0
        (M.config machine.old) answers.old events.old.items }
    requires ends { ShowsEnds (M.next machine.old) }
    ensures next { OnOk result (M.next machine.new ≡ M.next machine.old) }
    ensures after { OnOk result (IsAfter (M.next machine.old) (M.config machine.old) answers.old steps
        (M.config machine.new) answers.new events.new.items) }
    ensures deep { IsErrOf result RunError.Deep →
        RunGetsDeep (M.next machine.old) (M.config machine.old) answers.old steps }
{
    for _ in 0..steps {
        let step = match machine.advance(alloc, answers) {
            Ok(step) => step,
            Err(error) => return Err(error),
        };
        match step {
            Step::Quiet => {}
            Step::Shown(event) => events.push(event)?,
            Step::Waiting | Step::Stopped => return Ok(()),
        }
    }
    Ok(())
}

/// Makes this many steps with these answers, from where the machine stands.
///
/// `RunError::Deep` comes exactly where one of these steps makes one frame more than 10,000.
pub(crate) fn replay_run<M: Stepping>(
    alloc: Global,
    machine: &mut M,
    answers: &[i32],
    steps: u32,
) -> Result<Replay, RunError>
    requires shallow { frame_count (M.config machine.old) ≤ frame_limit }
    requires live { IsLive (M.config machine.old) }
    requires ends { ShowsEnds (M.next machine.old) }
    requires rests { RestsWhenOver (M.next machine.old) }
    ensures events { IfOk result (λ replay.
        replay.events.items ≡ events_of (M.next machine.old) steps (M.config machine.old) answers.now) }
    ensures close { IfOk result (λ replay.
        IsRunClose (M.next machine.old) (M.config machine.old) answers.now steps replay.close) }
    ensures shallow { OnOk result (RunStaysShallow (M.next machine.old) (M.config machine.old) answers.now steps) }
    ensures deep { IsErrOf result RunError.Deep →
        RunGetsDeep (M.next machine.old) (M.config machine.old) answers.now steps }
{
    let mut answers = Answers::new(Vec::from_slice(alloc, answers)?);
    let mut events = Vec::new(alloc);
    match make_steps(alloc, machine, &mut answers, &mut events, steps) {
        Ok(()) => {
            let close = close_of(alloc, machine, &mut answers, &events)?;
            Ok(Replay { events, close })
        }
        Err(error) => Err(error),
    }
}
