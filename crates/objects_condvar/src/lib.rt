// loom's rt/condvar.rs. The waiters stand oldest first.
#![tactic(auto)]

ghost use Rattle.std.specs.Prelude.{◌≡◌, Ok, map, take};
ghost use Rattle.rules.specs.declared.condvar.Call.TheVariants as call;
ghost use Rattle.rules.specs.Ground.{unpark_thread, unparks, touched, outcome};
ghost use Rattle.rules.specs.Condvar.{nobody, new, wait_of, set_last_access, effect};

use clocks::{THREADS, ThreadId};
use objects_ground::access;
use objects_ground::queue::pop_front;
use objects_threads::unpark_thread;
use rules::access::Access;
use rules::condvar::{Call, State, WAITERS};
use rules::object::{Effect, Failure, ObjectId};
use rules::thread::Thread;

// The filler of a place that no waiter has.
fn nobody() -> ThreadId
    ensures { result ≡ nobody }
{
    ThreadId(255)
}

pub fn new() -> State
    ensures { result ≡ new }
{
    State {
        last_access: access::new(),
        count: 0,
        waiters: [nobody(); WAITERS],
    }
}

// The mutex of a wait.
pub fn wait_of(call: Call) -> Option<ObjectId>
    ensures { result ≡ wait_of call }
{
    match call {
        Call::Wait(mutex) => Some(mutex),
        Call::NotifyOne | Call::NotifyAll => None,
    }
}

pub fn set_last_access(access: Access, state: State) -> State
    ensures { result ≡ set_last_access access state }
{
    State {
        last_access: access,
        ..state
    }
}

// The first half of loom's wait: the active thread becomes the newest waiter, if there is room.
#[tactic(auto, unfolding(rules::specs::Condvar::doing, rules::specs::Condvar::effect))]
fn wait(
    active: ThreadId,
    state: State,
    threads: [Thread; THREADS],
) -> Result<Effect<State>, Failure>
    ensures { (mutex : ObjectId) → result ≡ outcome (effect (call.Wait mutex) active state threads) }
{
    let n = state.count as usize;
    if WAITERS <= n {
        return Err(Failure::NoRoom);
    }
    let mut waiters = state.waiters;
    waiters[n] = active;
    Ok(Effect {
        answer: None,
        state: State {
            count: state.count + 1,
            waiters,
            ..state
        },
        threads,
    })
}

// Removes and unparks the oldest waiter, if any.
#[tactic(auto, unfolding(rules::specs::Condvar::doing, rules::specs::Condvar::effect))]
fn notify_one(active: ThreadId, state: State, threads: [Thread; THREADS]) -> Effect<State>
    ensures { Ok result ≡ outcome (effect call.NotifyOne active state threads) }
{
    if state.count == 0 {
        return Effect {
            answer: None,
            state,
            threads,
        };
    }
    Effect {
        answer: None,
        state: State {
            count: state.count - 1,
            waiters: pop_front(state.waiters, nobody()),
            ..state
        },
        threads: unpark_thread(threads, active, state.waiters[0]),
    }
}

// Unparks the first `count` waiters, the oldest first.
fn unpark_each(
    active: ThreadId,
    count: u8,
    waiters: [ThreadId; WAITERS],
    threads: [Thread; THREADS],
) -> [Thread; THREADS]
    ensures { result ≡ touched active (map unparks (take count waiters)) threads }
{
    waiters.iter().take(count as usize).fold(
        threads,
        |out, &id|
            ensures { result ≡ unpark_thread active id out }
        { unpark_thread(out, active, id) },
    )
}

// Removes and unparks every waiter.
#[tactic(auto, unfolding(rules::specs::Condvar::doing, rules::specs::Condvar::effect))]
fn notify_all(active: ThreadId, state: State, threads: [Thread; THREADS]) -> Effect<State>
    ensures { Ok result ≡ outcome (effect call.NotifyAll active state threads) }
{
    Effect {
        answer: None,
        state: State {
            last_access: state.last_access,
            ..new()
        },
        threads: unpark_each(active, state.count, state.waiters, threads),
    }
}

#[inline(never)]
pub fn effect(
    call: Call,
    active: ThreadId,
    state: State,
    threads: [Thread; THREADS],
) -> Result<Effect<State>, Failure>
    ensures { result ≡ outcome (effect call active state threads) }
{
    match call {
        Call::Wait(_) => wait(active, state, threads),
        Call::NotifyOne => Ok(notify_one(active, state, threads)),
        Call::NotifyAll => Ok(notify_all(active, state, threads)),
    }
}
