// loom's rt/notify.rs.
#![tactic(auto)]

ghost use Rattle.std.specs.Prelude.{◌≡◌, Ok};
ghost use Rattle.rules.specs.Ground.{outcome};
ghost use Rattle.rules.specs.Notify.{new, is_disabled, might_spur, asks, spur, set_last_access, effect};
ghost use Rattle.rules.specs.declared.notify.Call.TheVariants.{Notify, Wait};

use clocks::{Clock, THREADS, ThreadId};
use objects_ground::access;
use objects_threads::{others, sync_load, sync_store};
use rules::access::Access;
use rules::notify::{Call, State};
use rules::object::{Effect, Failure, ObjectId};
use rules::thread::{Change, Thread};

pub fn new(spurious: bool) -> State
    ensures { result ≡ new spurious }
{
    State {
        spurious,
        did_spur: false,
        notified: false,
        last_access: access::new(),
        synchronize: Clock::new(),
    }
}

// A wait blocks at its announcement unless notified.
pub fn is_disabled(call: Call, state: State) -> bool
    ensures { result ≡ is_disabled call state }
{
    matches!(call, Call::Wait) && !state.notified
}

// A wait wakes spuriously once at most.
fn might_spur(state: State) -> bool
    ensures { result ≡ might_spur state }
{
    state.spurious && !state.did_spur
}

// A wait that might wake spuriously takes a decision first.
pub fn asks(call: Call, state: State) -> bool
    ensures { result ≡ asks call state }
{
    matches!(call, Call::Wait) && might_spur(state)
}

// A notification that is pending stays so.
pub fn spur(state: State) -> State
    ensures { result ≡ spur state }
{
    State {
        did_spur: true,
        ..state
    }
}

pub fn set_last_access(access: Access, state: State) -> State
    ensures { result ≡ set_last_access access state }
{
    State {
        last_access: access,
        ..state
    }
}

// Stores, sets notified, and unparks every other thread that is announced on it.
#[tactic(auto, unfolding(rules::specs::Notify::doing, rules::specs::Notify::effect))]
fn notify(
    active: ThreadId,
    object: ObjectId,
    state: State,
    threads: [Thread; THREADS],
) -> Effect<State>
    ensures { Ok result ≡ outcome (effect Notify active object state threads) }
{
    let synchronize = sync_store(threads, active, state.synchronize);
    Effect {
        answer: None,
        state: State {
            notified: true,
            synchronize,
            ..state
        },
        threads: others(threads, Change::Unpark, active, object),
    }
}

// Loads, and uses the notification up; without one it is misuse.
#[tactic(auto, unfolding(rules::specs::Notify::doing, rules::specs::Notify::effect))]
fn wait(
    active: ThreadId,
    state: State,
    threads: [Thread; THREADS],
) -> Result<Effect<State>, Failure>
    ensures { (object : ObjectId) → result ≡ outcome (effect Wait active object state threads) }
{
    if !state.notified {
        return Err(Failure::Misuse);
    }
    Ok(Effect {
        answer: None,
        state: State {
            notified: false,
            ..state
        },
        threads: sync_load(threads, active, state.synchronize),
    })
}

#[inline(never)]
pub fn effect(
    call: Call,
    active: ThreadId,
    object: ObjectId,
    state: State,
    threads: [Thread; THREADS],
) -> Result<Effect<State>, Failure>
    ensures { result ≡ outcome (effect call active object state threads) }
{
    match call {
        Call::Notify => Ok(notify(active, object, state, threads)),
        Call::Wait => wait(active, state, threads),
    }
}
