// The store of objects: what each kind's crate says of an operation, a line for each kind; announcing, leaks (loom's rt/object.rs).
#![tactic(auto)]

ghost use Rattle.std.specs.Prelude.{◌≡◌};
ghost use Rattle.objects.specs.Settled.{put, settled};
ghost use Rattle.rules.specs.Effect.{is_disabled, asks, last_dependent_access, set_last_access, effect};
ghost use Rattle.rules.specs.Turn.{dependence};
ghost use Rattle.rules.specs.Object.{new_entry, no_object, leaks};

use clocks::{Clock, THREADS, ThreadId};
use objects_ground::access;
use rules::access::Access;
use rules::object::{Effect, Entry, Failure, Kind, ObjectId};
use rules::table::{Call, Made};
use rules::thread::Thread;

// An object as the table makes it.
#[tactic(auto, unfolding(rules::specs::Object::new_entry))]
pub fn new_entry(made: Made) -> Entry
    ensures { result ≡ new_entry made }
{
    Entry {
        kind: made.kind,
        mutex: objects_mutex::new(),
        rwlock: objects_rwlock::new(),
        condvar: objects_condvar::new(),
        notify: objects_notify::new(made.spurious),
        channel: objects_mpsc::new(),
        arc: objects_arc::new(),
        cell: objects_cell::new(),
    }
}

// What is read where no object is.
pub fn absent() -> Entry
    ensures { result ≡ new_entry no_object }
{
    new_entry(Made {
        kind: Kind::Nothing,
        spurious: false,
    })
}

// Where an operation is blocked at its announcement.
#[tactic(auto, unfolding(rules::specs::Effect::is_disabled))]
pub fn is_disabled(call: Call, e: Entry) -> bool
    ensures { result ≡ is_disabled call e }
{
    match call {
        Call::Mutex(c) => objects_mutex::is_disabled(c, e.mutex),
        Call::RwLock(c) => objects_rwlock::is_disabled(c, e.rwlock),
        Call::Notify(c) => objects_notify::is_disabled(c, e.notify),
        Call::Channel(c) => objects_mpsc::is_disabled(c, e.channel),
        Call::Condvar(_) | Call::Arc(_) | Call::Cell(_) => false,
    }
}

// A wait that might end spuriously takes a decision first.
#[tactic(auto, unfolding(rules::specs::Effect::asks))]
pub fn asks(call: Call, e: Entry) -> bool
    ensures { result ≡ asks call e }
{
    match call {
        Call::Notify(c) => objects_notify::asks(c, e.notify),
        Call::Mutex(_) | Call::RwLock(_) | Call::Condvar(_) => false,
        Call::Channel(_) | Call::Arc(_) | Call::Cell(_) => false,
    }
}

// The last access that an operation depends on.
#[tactic(auto, unfolding(rules::specs::Effect::last_dependent_access))]
fn last_dependent_access(call: Call, e: Entry) -> Access
    ensures { result ≡ last_dependent_access call e }
{
    match call {
        Call::Mutex(_) => e.mutex.last_access,
        Call::RwLock(_) => e.rwlock.last_access,
        Call::Condvar(_) => e.condvar.last_access,
        Call::Notify(_) => e.notify.last_access,
        Call::Channel(c) => {
            objects_mpsc::last_dependent_access(objects_mpsc::action_of(c), e.channel)
        }
        Call::Arc(c) => objects_arc::last_dependent_access(objects_arc::action_of(c), e.arc),
        Call::Cell(_) => access::new(),
    }
}

// The last dependent access is joined in, and the own count rises.
#[tactic(auto, unfolding(rules::specs::Turn::dependence))]
pub fn dependence(t: ThreadId, call: Call, e: Entry, x: Thread) -> Clock
    ensures { result ≡ dependence t call e x }
{
    let version = last_dependent_access(call, e).version;
    x.dependence.join(version).inc(t)
}

// What came of an operation is put in its place; of one that failed nothing did.
fn settle<S: Copy>(
    done: Result<Effect<S>, Failure>,
    state: &mut S,
    threads: &mut [Thread; THREADS],
) -> Result<Option<u16>, Failure>
    ensures { record { answer = result; state = state.new; threads = threads.new } ≡ put done state.old threads.old }
{
    let done = done?;
    *state = done.state;
    *threads = done.threads;
    Ok(done.answer)
}

// What an operation does to its object and to the threads, which are lent; one that fails leaves both as they were.
// Each lock's code is kept out of line: a call pays at its entry for the locals of all that is inlined there.
pub fn effect(
    call: Call,
    active: ThreadId,
    object: ObjectId,
    e: &mut Entry,
    threads: &mut [Thread; THREADS],
) -> Result<Option<u16>, Failure>
    ensures { record { answer = result; entry = e.new; threads = threads.new } ≡ settled (effect call active object e.old threads.old) e.old threads.old }
{
    let ts = *threads;
    match call {
        Call::Mutex(c) => {
            let done = objects_mutex::effect(c, active, object, e.mutex, ts);
            settle(done, &mut e.mutex, threads)
        }
        Call::RwLock(c) => {
            let done = objects_rwlock::effect(c, active, object, e.rwlock, ts);
            settle(done, &mut e.rwlock, threads)
        }
        Call::Condvar(c) => {
            let done = objects_condvar::effect(c, active, e.condvar, ts);
            settle(done, &mut e.condvar, threads)
        }
        Call::Notify(c) => {
            let done = objects_notify::effect(c, active, object, e.notify, ts);
            settle(done, &mut e.notify, threads)
        }
        Call::Channel(c) => {
            let done = objects_mpsc::effect(c, active, object, e.channel, ts);
            settle(done, &mut e.channel, threads)
        }
        Call::Arc(c) => {
            let done = objects_arc::effect(c, active, e.arc, ts);
            settle(done, &mut e.arc, threads)
        }
        Call::Cell(c) => {
            let done = objects_cell::effect(c, active, e.cell, ts);
            settle(done, &mut e.cell, threads)
        }
    }
}

// The access is the last one then; a cell's are not announced.
#[tactic(auto, unfolding(rules::specs::Effect::set_last_access))]
pub fn set_last_access(call: Call, access: Access, e: &mut Entry)
    ensures { e.new ≡ set_last_access call access e.old }
{
    match call {
        Call::Mutex(_) => e.mutex = objects_mutex::set_last_access(access, e.mutex),
        Call::RwLock(_) => e.rwlock = objects_rwlock::set_last_access(access, e.rwlock),
        Call::Condvar(_) => e.condvar = objects_condvar::set_last_access(access, e.condvar),
        Call::Notify(_) => e.notify = objects_notify::set_last_access(access, e.notify),
        Call::Channel(c) => {
            let action = objects_mpsc::action_of(c);
            e.channel = objects_mpsc::set_last_access(action, access, e.channel);
        }
        Call::Arc(c) => {
            let action = objects_arc::action_of(c);
            e.arc = objects_arc::set_last_access(action, access, e.arc);
        }
        Call::Cell(_) => {}
    }
}

// An Arc or a channel whose count is not 0.
pub fn leaks(kind: Kind, e: Entry) -> bool
    ensures { result ≡ leaks kind e }
{
    match kind {
        Kind::Channel => objects_mpsc::leaks(e.channel),
        Kind::Arc => objects_arc::leaks(e.arc),
        Kind::Mutex | Kind::RwLock | Kind::Condvar | Kind::Notify | Kind::Cell => false,
        Kind::Nothing => false,
    }
}
