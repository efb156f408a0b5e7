// loom's rt/mutex.rs.
#![tactic(auto)]

ghost use Rattle.std.specs.Prelude.{◌≡◌, Ok};
ghost use Rattle.objects_ground.specs.Barred.{barring};
ghost use Rattle.rules.specs.Ground.{thread_at, left, outcome};
ghost use Rattle.rules.specs.Mutex.{new, is_free, is_disabled, set_last_access, taking, acquiring, releasing, effect};

use clocks::{Clock, THREADS, ThreadId};
use objects_ground::access;
use objects_threads::{others, sync_load, sync_store};
use rules::access::Access;
use rules::mutex::{Call, State};
use rules::object::{Effect, Failure, ObjectId};
use rules::thread::{Change, Thread};

pub fn new() -> State
    ensures { result ≡ new }
{
    State {
        lock: None,
        last_access: access::new(),
        synchronize: Clock::new(),
    }
}

// A release needs no announcement.
pub fn is_free(call: Call) -> bool
    ensures { result ≡ is_free call }
{
    matches!(call, Call::ReleaseLock)
}

// An announced acquire blocks if the mutex is held.
pub fn is_disabled(call: Call, state: State) -> bool
    ensures { result ≡ is_disabled call state }
{
    match call {
        Call::AcquireLock => state.lock.is_some(),
        Call::TryAcquireLock | Call::ReleaseLock => false, // A try fails at its effect.
    }
}

pub fn set_last_access(access: Access, state: State) -> State
    ensures { result ≡ set_last_access access state }
{
    State {
        last_access: access,
        ..state
    }
}

// The free mutex is taken: loads, and blocks every other thread that is announced on it.
fn post_acquire(
    active: ThreadId,
    object: ObjectId,
    answer: Option<u16>,
    state: State,
    threads: [Thread; THREADS],
) -> Effect<State>
    ensures { Ok result ≡ outcome (left active (taking active object answer state) threads) }
{
    let loaded = sync_load(threads, active, state.synchronize);
    Effect {
        answer,
        state: State {
            lock: Some(active),
            ..state
        },
        threads: others(loaded, Change::Block, active, object),
    }
}

// Taken if the mutex is free, with the answer `taken`; on one that is held nothing changes but the answer, as `barred` says.
fn acquire_lock(
    active: ThreadId,
    object: ObjectId,
    taken: Option<u16>,
    barred: Result<Option<u16>, Failure>,
    state: State,
    threads: [Thread; THREADS],
) -> Result<Effect<State>, Failure>
    ensures { result ≡ outcome (left active (acquiring active object taken (barring barred state) state) threads) }
{
    if state.lock.is_some() {
        return Ok(Effect {
            answer: barred?,
            state,
            threads,
        });
    }
    Ok(post_acquire(active, object, taken, state, threads))
}

// Clears whoever holds the mutex, stores, and wakes every other thread that is announced on it.
fn release_lock(
    active: ThreadId,
    object: ObjectId,
    state: State,
    threads: [Thread; THREADS],
) -> Effect<State>
    ensures { Ok result ≡ outcome (left active (releasing object (thread_at threads active).clock state) threads) }
{
    Effect {
        answer: None,
        state: State {
            lock: None,
            synchronize: sync_store(threads, active, state.synchronize),
            ..state
        },
        threads: others(threads, Change::Wake, active, object),
    }
}

#[inline(never)]
#[tactic(auto, unfolding(rules::specs::Mutex::effect, rules::specs::Mutex::doing))]
pub fn effect(
    call: Call,
    active: ThreadId,
    object: ObjectId,
    state: State,
    threads: [Thread; THREADS],
) -> Result<Effect<State>, Failure>
    ensures { result ≡ outcome (effect call active object state threads) }
{
    match call {
        Call::AcquireLock => acquire_lock(
            active,
            object,
            None,
            Err(Failure::Misuse),
            state,
            threads,
        ),
        Call::TryAcquireLock => acquire_lock(active, object, Some(1), Ok(Some(0)), state, threads),
        Call::ReleaseLock => Ok(release_lock(active, object, state, threads)),
    }
}
