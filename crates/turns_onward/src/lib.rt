// What follows what took effect: its thread has done one operation more or is parked, and goes on, or the step has failed.
#![tactic(auto)]

ghost use Rattle.std.specs.Prelude.{◌≡◌};
ghost use Rattle.turns_steps.specs.Loud.{one_more, parked, after_effect, failed_at, next_of, next_in, outcome_of};

use clocks::{Clock, ThreadId};
use objects_ground::count::next_position;
use objects_record::{has_unpark, set_blocked, set_runnable, with_phase};
use rules::answer::{Answer, Spot};
use rules::object::{Action, Failure, ObjectId, Operation};
use rules::table::Op;
use rules::thread::{Phase, Thread};
use turns_steps::{Acting, Move, who};

// One operation more is done and its answer left; a wait is not done yet.
fn one_more_done(wait: Option<ObjectId>, n: Option<u16>, x: Thread) -> Thread
    ensures { result ≡ one_more wait n x }
{
    if wait.is_some() {
        return x;
    }
    Thread {
        position: next_position(x.position),
        last_answer: n.unwrap_or(x.last_answer),
        ..x
    }
}

// A stored unpark is used up, and the thread goes on to retake the mutex; without one it is parked.
#[tactic(auto, unfolding(turns_steps::specs::Loud::parked))]
fn parked(m: ObjectId, x: Thread) -> Thread
    ensures { result ≡ parked m x }
{
    if has_unpark(x.state) {
        return with_phase(
            set_runnable(x),
            Phase::Retaking(Operation {
                obj: m,
                action: Action::Opaque,
            }),
        );
    }
    with_phase(set_blocked(x), Phase::Parked)
}

// The thread that acted, after what took effect: an announced operation is no longer announced.
pub fn after_effect(m: Move, wait: Option<ObjectId>, n: Option<u16>, v: Clock, x: Thread) -> Thread
    ensures { result ≡ after_effect m wait n v x }
{
    match m {
        Move::Begins(_) => one_more_done(
            wait,
            n,
            Thread {
                phase: Phase::Nothing,
                dependence: v,
                ..x
            },
        ),
        Move::Answers(_, _) => one_more_done(None, n, set_runnable(x)),
        Move::Goes(_, _) => one_more_done(None, n, x),
        Move::Waits(_, o) => parked(o, x),
    }
}

// The verdict on a step that fails.
fn verdict(failure: Failure, spot: Spot) -> Answer
    ensures { result ≡ failed_at failure spot }
{
    match failure {
        Failure::Misuse => Answer::Misuse(spot),
        Failure::NoRoom => Answer::NoRoom(spot),
        Failure::Race(other) => Answer::Race(spot, other),
    }
}

// Who acts after what took effect: a failing step is a verdict, and another one is followed.
pub fn outcome(done: Result<Option<u16>, Failure>, m: Move, op: Op, position: u8) -> Acting
    ensures { result ≡ outcome_of done m op position }
{
    match done {
        Ok(n) => Acting::InEffect(m, op, n),
        Err(failure) => Acting::Done(verdict(
            failure,
            Spot {
                thread: who(m),
                position,
                object: op.object,
            },
        )),
    }
}

// A wait goes on to its mutex, and a thread to its next operation.
fn next_of(wait: Option<ObjectId>, t: ThreadId, p: u8) -> Acting
    ensures { result ≡ next_of wait t p }
{
    match wait {
        Some(m) => Acting::Moves(Move::Waits(t, m)),
        None => Acting::Moves(Move::Goes(t, p)),
    }
}

// Who acts after a thread that stood at `position` has gone on.
pub fn next_in(m: Move, wait: Option<ObjectId>, position: u8) -> Acting
    ensures { result ≡ next_in m wait position }
{
    match m {
        Move::Begins(t) => next_of(wait, t, next_position(position)),
        Move::Goes(t, p) => Acting::Moves(Move::Goes(t, next_position(p))),
        Move::Answers(_, _) | Move::Waits(_, _) => Acting::Over,
    }
}
