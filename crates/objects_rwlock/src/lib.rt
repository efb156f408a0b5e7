// loom's rt/rwlock.rs. The readers are a set: a mask with a bit for each thread.
#![tactic(auto)]

ghost use Rattle.std.specs.Prelude.{◌≡◌, Ok};
ghost use Rattle.objects_ground.specs.Barred.{barring};
ghost use Rattle.rules.specs.declared.rwlock.Call.TheVariants.{ReleaseReadLock};
ghost use Rattle.rules.specs.Ground.{thread_at, left, outcome};
ghost use Rattle.rules.specs.RwLock.{new, is_write_locked, is_read_locked, is_free, action_of, is_disabled, set_last_access, reading, writing, acquiring_read, acquiring_write, freeing, leaving, effect};

use clocks::{Clock, THREADS, ThreadId};
use objects_ground::access;
use objects_readers::{with_reader, without_reader};
use objects_threads::{others, sync_load, sync_store};
use rules::access::Access;
use rules::object::{Effect, Failure, ObjectId};
use rules::rwlock::{Action, Call, Locked, State};
use rules::thread::{Change, Thread};

pub fn new() -> State
    ensures { result ≡ new }
{
    State {
        lock: None,
        last_access: access::new(),
        synchronize: Clock::new(),
    }
}

fn is_write_locked(lock: Option<Locked>) -> bool
    ensures { result ≡ is_write_locked lock }
{
    matches!(lock, Some(Locked::Write(_)))
}

fn is_read_locked(lock: Option<Locked>) -> bool
    ensures { result ≡ is_read_locked lock }
{
    matches!(lock, Some(Locked::Read(_)))
}

// Releases need no announcement.
pub fn is_free(call: Call) -> bool
    ensures { result ≡ is_free call }
{
    matches!(call, Call::ReleaseReadLock | Call::ReleaseWriteLock)
}

// The action as which an operation is announced: a try is one of its kind.
pub fn action_of(call: Call) -> Action
    ensures { result ≡ action_of call }
{
    match call {
        Call::AcquireReadLock | Call::TryAcquireReadLock | Call::ReleaseReadLock => Action::Read,
        Call::AcquireWriteLock | Call::TryAcquireWriteLock | Call::ReleaseWriteLock =>
            Action::Write,
    }
}

// A read blocks while the lock is written, a write while it is locked at all.
pub fn is_disabled(call: Call, state: State) -> bool
    ensures { result ≡ is_disabled call state }
{
    let lock = state.lock;
    match call {
        Call::AcquireReadLock => is_write_locked(lock),
        Call::AcquireWriteLock => is_write_locked(lock) || is_read_locked(lock),
        Call::TryAcquireReadLock | Call::TryAcquireWriteLock => false, // A try fails at its effect.
        Call::ReleaseReadLock | Call::ReleaseWriteLock => false,
    }
}

pub fn set_last_access(access: Access, state: State) -> State
    ensures { result ≡ set_last_access access state }
{
    State {
        last_access: access,
        ..state
    }
}

// The active thread joins the readers: loads, and blocks every other announced writer.
fn post_acquire_read_lock(
    active: ThreadId,
    object: ObjectId,
    answer: Option<u16>,
    readers: u16,
    state: State,
    threads: [Thread; THREADS],
) -> Effect<State>
    ensures { Ok result ≡ outcome (left active (reading active object answer readers state) threads) }
{
    let loaded = sync_load(threads, active, state.synchronize);
    Effect {
        answer,
        state: State {
            lock: Some(Locked::Read(with_reader(readers, active))),
            ..state
        },
        threads: others(loaded, Change::BlockWriters, active, object),
    }
}

// The active thread writes: loads, and blocks every other announced thread.
fn post_acquire_write_lock(
    active: ThreadId,
    object: ObjectId,
    answer: Option<u16>,
    state: State,
    threads: [Thread; THREADS],
) -> Effect<State>
    ensures { Ok result ≡ outcome (left active (writing active object answer state) threads) }
{
    let loaded = sync_load(threads, active, state.synchronize);
    Effect {
        answer,
        state: State {
            lock: Some(Locked::Write(active)),
            ..state
        },
        threads: others(loaded, Change::Block, active, object),
    }
}

// Taken unless the lock is written, with the answer `taken`; else nothing changes but the answer, as `barred` says.
fn acquire_read_lock(
    active: ThreadId,
    object: ObjectId,
    taken: Option<u16>,
    barred: Result<Option<u16>, Failure>,
    state: State,
    threads: [Thread; THREADS],
) -> Result<Effect<State>, Failure>
    ensures { result ≡ outcome (left active (acquiring_read active object taken (barring barred state) state) threads) }
{
    let readers = match state.lock {
        None => 0,
        Some(Locked::Read(readers)) => readers,
        Some(Locked::Write(_)) => return Ok(Effect {
            answer: barred?,
            state,
            threads,
        }),
    };
    Ok(post_acquire_read_lock(active, object, taken, readers, state, threads))
}

// Taken if nobody has the lock, in the same way.
fn acquire_write_lock(
    active: ThreadId,
    object: ObjectId,
    taken: Option<u16>,
    barred: Result<Option<u16>, Failure>,
    state: State,
    threads: [Thread; THREADS],
) -> Result<Effect<State>, Failure>
    ensures { result ≡ outcome (left active (acquiring_write active object taken (barring barred state) state) threads) }
{
    if state.lock.is_some() {
        return Ok(Effect {
            answer: barred?,
            state,
            threads,
        });
    }
    Ok(post_acquire_write_lock(active, object, taken, state, threads))
}

// Frees the lock at any state: stores, and wakes every other thread that is announced on it.
fn release_write_lock(
    active: ThreadId,
    object: ObjectId,
    state: State,
    threads: [Thread; THREADS],
) -> Effect<State>
    ensures { Ok result ≡ outcome (left active (freeing object (thread_at threads active).clock state) threads) }
{
    Effect {
        answer: None,
        state: State {
            lock: None,
            synchronize: sync_store(threads, active, state.synchronize),
            ..state
        },
        threads: others(threads, Change::Wake, active, object),
    }
}

// `readers` are left: the last one out frees the lock, and any other only stores.
fn leave(
    active: ThreadId,
    object: ObjectId,
    readers: u16,
    state: State,
    threads: [Thread; THREADS],
) -> Effect<State>
    ensures { Ok result ≡ outcome (left active (leaving object (thread_at threads active).clock readers state) threads) }
{
    if readers == 0 {
        return release_write_lock(active, object, state, threads);
    }
    Effect {
        answer: None,
        state: State {
            lock: Some(Locked::Read(readers)),
            synchronize: sync_store(threads, active, state.synchronize),
            ..state
        },
        threads,
    }
}

// By a thread that is no reader it changes the clock only; on no read lock it is misuse.
#[tactic(auto, unfolding(rules::specs::RwLock::effect, rules::specs::RwLock::doing))]
fn release_read_lock(
    active: ThreadId,
    object: ObjectId,
    state: State,
    threads: [Thread; THREADS],
) -> Result<Effect<State>, Failure>
    ensures { result ≡ outcome (effect ReleaseReadLock active object state threads) }
{
    let Some(Locked::Read(readers)) = state.lock else {
        return Err(Failure::Misuse);
    };
    Ok(leave(
        active,
        object,
        without_reader(readers, active),
        state,
        threads,
    ))
}

#[inline(never)]
#[tactic(auto, unfolding(rules::specs::RwLock::effect, rules::specs::RwLock::doing))]
pub fn effect(
    call: Call,
    active: ThreadId,
    object: ObjectId,
    state: State,
    threads: [Thread; THREADS],
) -> Result<Effect<State>, Failure>
    ensures { result ≡ outcome (effect call active object state threads) }
{
    let misuse = Err(Failure::Misuse);
    let refused = Ok(Some(0));
    match call {
        Call::AcquireReadLock => acquire_read_lock(active, object, None, misuse, state, threads),
        Call::AcquireWriteLock => acquire_write_lock(active, object, None, misuse, state, threads),
        Call::TryAcquireReadLock => acquire_read_lock(
            active,
            object,
            Some(1),
            refused,
            state,
            threads,
        ),
        Call::TryAcquireWriteLock => acquire_write_lock(
            active,
            object,
            Some(1),
            refused,
            state,
            threads,
        ),
        Call::ReleaseReadLock => release_read_lock(active, object, state, threads),
        Call::ReleaseWriteLock => Ok(release_write_lock(active, object, state, threads)),
    }
}
