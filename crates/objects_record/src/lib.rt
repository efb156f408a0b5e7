// A thread's record (loom's rt/thread.rs).
#![tactic(auto)]

ghost use Rattle.std.specs.Prelude.{◌≡◌};
ghost use Rattle.rules.specs.Ground.{absent, with_state, with_phase, set_runnable, set_blocked, unpark_state, unpark, is_runnable, has_unpark, is_ended, is_on};

use clocks::Clock;
use rules::object::ObjectId;
use rules::thread::{Phase, State, Thread};

// A thread that a table does not have.
pub fn absent() -> Thread
    ensures { result ≡ absent }
{
    Thread {
        state: State::Ended,
        phase: Phase::Nothing,
        position: 0,
        last_answer: 0,
        clock: Clock::new(),
        dependence: Clock::new(),
    }
}

pub fn with_state(t: Thread, s: State) -> Thread
    ensures { result ≡ with_state t s }
{
    Thread { state: s, ..t }
}

pub fn with_phase(t: Thread, p: Phase) -> Thread
    ensures { result ≡ with_phase t p }
{
    Thread { phase: p, ..t }
}

// Drops a stored unpark.
pub fn set_runnable(t: Thread) -> Thread
    ensures { result ≡ set_runnable t }
{
    with_state(t, State::Runnable)
}

// Drops a stored unpark.
pub fn set_blocked(t: Thread) -> Thread
    ensures { result ≡ set_blocked t }
{
    with_state(t, State::Blocked)
}

fn unpark_state(s: State) -> State
    ensures { result ≡ unpark_state s }
{
    match s {
        State::Runnable | State::Unparked => State::Unparked,
        State::Blocked => State::Runnable,
        State::Ended => State::Ended,
    }
}

// The clock `by` is joined in, also into a thread that has ended.
pub fn unpark(t: Thread, by: Clock) -> Thread
    ensures { result ≡ unpark by t }
{
    Thread {
        state: unpark_state(t.state),
        clock: t.clock.join(by),
        ..t
    }
}

pub fn is_runnable(s: State) -> bool
    ensures { result ≡ is_runnable s }
{
    matches!(s, State::Runnable | State::Unparked)
}

pub fn has_unpark(s: State) -> bool
    ensures { result ≡ has_unpark s }
{
    matches!(s, State::Unparked)
}

pub fn is_ended(s: State) -> bool
    ensures { result ≡ is_ended s }
{
    matches!(s, State::Ended)
}

// Whether a phase announces an operation on the object.
pub fn is_on(p: Phase, object: ObjectId) -> bool
    ensures { result ≡ is_on object p }
{
    match p {
        Phase::Announced(op) | Phase::Retaking(op) => op.obj == object,
        Phase::Nothing | Phase::Parked => false,
    }
}
