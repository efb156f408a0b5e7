// loom's rt/arc.rs.
#![tactic(auto)]

ghost use Rattle.std.specs.Prelude.{◌≡◌, Ok};
ghost use Rattle.rules.specs.Ground.{left, outcome};
ghost use Rattle.rules.specs.declared.arc.Call.TheVariants as call;
ghost use Rattle.rules.specs.Arc.{new, leaks, action_of, last_modification, last_dependent_access, set_last_access, inspecting, effect};

use clocks::{Clock, THREADS, ThreadId};
use objects_ground::access;
use objects_ground::count::one_more;
use objects_threads::{sync_load, sync_store};
use rules::access::Access;
use rules::arc::{Action, Call, RefModify, State};
use rules::object::{Effect, Failure};
use rules::thread::Thread;

pub fn new() -> State
    ensures { result ≡ new }
{
    let never = access::new();
    State {
        ref_cnt: 1,
        synchronize: Clock::new(),
        last_ref_inc: never,
        last_ref_dec: never,
        last_ref_inspect: never,
        last_ref_modification: None,
    }
}

// loom's check_for_leaks.
pub fn leaks(state: State) -> bool
    ensures { result ≡ leaks state }
{
    state.ref_cnt != 0
}

// get_mut counts as a drop.
pub fn action_of(call: Call) -> Action
    ensures { result ≡ action_of call }
{
    match call {
        Call::RefInc => Action::RefInc,
        Call::RefDec => Action::RefDec,
        Call::GetMut => Action::RefDec,
        Call::StrongCount => Action::Inspect,
    }
}

// The access that changed the count last.
fn last_modification(state: State) -> Access
    ensures { result ≡ last_modification state.last_ref_modification state }
{
    match state.last_ref_modification {
        None => access::new(),
        Some(RefModify::RefInc) => state.last_ref_inc,
        Some(RefModify::RefDec) => state.last_ref_dec,
    }
}

// A clone depends on inspections only, and drops on each other.
pub fn last_dependent_access(action: Action, state: State) -> Access
    ensures { result ≡ last_dependent_access action state }
{
    match action {
        Action::RefInc => state.last_ref_inspect,
        Action::RefDec => state.last_ref_dec,
        Action::Inspect => last_modification(state),
    }
}

pub fn set_last_access(action: Action, access: Access, state: State) -> State
    ensures { result ≡ set_last_access action access state }
{
    match action {
        Action::RefInc => State {
            last_ref_inc: access,
            last_ref_modification: Some(RefModify::RefInc),
            ..state
        },
        Action::RefDec => State {
            last_ref_dec: access,
            last_ref_modification: Some(RefModify::RefDec),
            ..state
        },
        Action::Inspect => State {
            last_ref_inspect: access,
            ..state
        },
    }
}

// Works at 0 too.
#[tactic(auto, unfolding(rules::specs::Arc::effect, rules::specs::Arc::doing))]
fn ref_inc(state: State, threads: [Thread; THREADS]) -> Effect<State>
    ensures { (active : ThreadId) → Ok result ≡ outcome (effect call.RefInc active state threads) }
{
    Effect {
        answer: None,
        state: State {
            ref_cnt: one_more(state.ref_cnt),
            ..state
        },
        threads,
    }
}

// Decrements and stores. The last one out loads what the others stored, since it drops the value.
#[tactic(auto, unfolding(rules::specs::Arc::effect, rules::specs::Arc::doing))]
fn ref_dec(
    active: ThreadId,
    state: State,
    threads: [Thread; THREADS],
) -> Result<Effect<State>, Failure>
    ensures { result ≡ outcome (effect call.RefDec active state threads) }
{
    let Some(ref_cnt) = state.ref_cnt.checked_sub(1) else {
        return Err(Failure::Misuse);
    };
    let synchronize = sync_store(threads, active, state.synchronize);
    let is_last = ref_cnt == 0;
    Ok(Effect {
        answer: Some(u16::from(is_last)),
        state: State {
            ref_cnt,
            synchronize,
            ..state
        },
        threads: if is_last {
            sync_load(threads, active, synchronize)
        } else {
            threads
        },
    })
}

// Loads, and changes nothing else.
fn inspect(active: ThreadId, answer: u16, state: State, threads: [Thread; THREADS]) -> Effect<State>
    ensures { Ok result ≡ outcome (left active (inspecting answer state) threads) }
{
    Effect {
        answer: Some(answer),
        state,
        threads: sync_load(threads, active, state.synchronize),
    }
}

#[tactic(auto, unfolding(rules::specs::Arc::effect, rules::specs::Arc::doing))]
fn get_mut(
    active: ThreadId,
    state: State,
    threads: [Thread; THREADS],
) -> Result<Effect<State>, Failure>
    ensures { result ≡ outcome (effect call.GetMut active state threads) }
{
    if state.ref_cnt == 0 {
        return Err(Failure::Misuse);
    }
    let is_only_ref = state.ref_cnt == 1;
    Ok(inspect(active, u16::from(is_only_ref), state, threads))
}

#[tactic(auto, unfolding(rules::specs::Arc::effect, rules::specs::Arc::doing))]
fn strong_count(
    active: ThreadId,
    state: State,
    threads: [Thread; THREADS],
) -> Result<Effect<State>, Failure>
    ensures { result ≡ outcome (effect call.StrongCount active state threads) }
{
    if state.ref_cnt == 0 {
        return Err(Failure::Misuse);
    }
    Ok(inspect(active, state.ref_cnt, state, threads))
}

#[inline(never)]
pub fn effect(
    call: Call,
    active: ThreadId,
    state: State,
    threads: [Thread; THREADS],
) -> Result<Effect<State>, Failure>
    ensures { result ≡ outcome (effect call active state threads) }
{
    match call {
        Call::RefInc => Ok(ref_inc(state, threads)),
        Call::RefDec => ref_dec(active, state, threads),
        Call::GetMut => get_mut(active, state, threads),
        Call::StrongCount => strong_count(active, state, threads),
    }
}
