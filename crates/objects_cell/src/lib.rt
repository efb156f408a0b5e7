// loom's rt/cell.rs.
#![tactic(auto)]

ghost use Rattle.std.specs.Prelude.{◌≡◌};
ghost use Rattle.rules.specs.Ground.{outcome};
ghost use Rattle.rules.specs.declared.cell.Call.TheVariants.{StartRead, EndRead, StartWrite, EndWrite};
ghost use Rattle.rules.specs.Cell.{new, is_misuse, racing, track_read, track_write, read, written, effect};

use clocks::{Ahead, Clock, THREADS, ThreadId};
use objects_ground::count::{one_less, one_more};
use objects_ground::ending::is_fine;
use objects_threads::{get, own_count_up};
use rules::cell::{Call, State};
use rules::object::{Effect, Failure};
use rules::thread::Thread;

pub fn new() -> State
    ensures { result ≡ new }
{
    State {
        is_reading: 0,
        is_writing: false,
        read_access: Clock::new(),
        write_access: Clock::new(),
    }
}

// What loom asserts: no start while writing, no write beside reads, no end of what is not going on.
fn is_misuse(call: Call, state: State) -> bool
    ensures { result ≡ is_misuse call state }
{
    let reading = state.is_reading != 0;
    match call {
        Call::StartRead => state.is_writing,
        Call::EndRead => !reading || state.is_writing,
        Call::StartWrite => reading || state.is_writing,
        Call::EndWrite => !state.is_writing || reading,
    }
}

fn racing(ahead: Option<Ahead>) -> Result<(), Failure>
    ensures { result ≡ racing ahead }
{
    match ahead {
        None => Ok(()),
        Some(a) => Err(Failure::Race(a.lowest)),
    }
}

// A read needs the write clock at most the thread's.
#[tactic(auto, unfolding(rules::specs::Cell::track_read))]
fn track_read(clock: Clock, state: State) -> Result<(), Failure>
    ensures { result ≡ track_read clock state }
{
    racing(clock.ahead(state.write_access))
}

// A write checks the write clock, then the read clock.
#[tactic(auto, unfolding(rules::specs::Cell::track_write, rules::specs::Cell::first_race))]
fn track_write(clock: Clock, state: State) -> Result<(), Failure>
    ensures { result ≡ track_write clock state }
{
    let first = racing(clock.ahead(state.write_access));
    if is_fine(first) {
        racing(clock.ahead(state.read_access))
    } else {
        first
    }
}

fn read(readers: u16, clock: Clock, state: State) -> State
    ensures { result ≡ read readers clock state }
{
    State {
        is_reading: readers,
        read_access: state.read_access.join(clock),
        ..state
    }
}

fn written(writing: bool, clock: Clock, state: State) -> State
    ensures { result ≡ written writing clock state }
{
    State {
        is_writing: writing,
        write_access: state.write_access.join(clock),
        ..state
    }
}

#[tactic(auto, unfolding(rules::specs::Cell::effect, rules::specs::Cell::doing, rules::specs::Cell::accessing))]
fn start_read(
    active: ThreadId,
    state: State,
    threads: [Thread; THREADS],
) -> Result<Effect<State>, Failure>
    ensures { result ≡ outcome (effect StartRead active state threads) }
{
    if is_misuse(Call::StartRead, state) {
        return Err(Failure::Misuse);
    }
    let clock = get(threads, active).clock.inc(active);
    track_read(clock, state)?;
    Ok(Effect {
        answer: None,
        state: read(one_more(state.is_reading), clock, state),
        threads: own_count_up(threads, active),
    })
}

// loom's drop of Reading.
#[tactic(auto, unfolding(rules::specs::Cell::effect, rules::specs::Cell::doing, rules::specs::Cell::accessing))]
fn end_read(
    active: ThreadId,
    state: State,
    threads: [Thread; THREADS],
) -> Result<Effect<State>, Failure>
    ensures { result ≡ outcome (effect EndRead active state threads) }
{
    if is_misuse(Call::EndRead, state) {
        return Err(Failure::Misuse);
    }
    let clock = get(threads, active).clock;
    track_read(clock, state)?;
    Ok(Effect {
        answer: None,
        state: read(one_less(state.is_reading), clock, state),
        threads,
    })
}

#[tactic(auto, unfolding(rules::specs::Cell::effect, rules::specs::Cell::doing, rules::specs::Cell::accessing))]
fn start_write(
    active: ThreadId,
    state: State,
    threads: [Thread; THREADS],
) -> Result<Effect<State>, Failure>
    ensures { result ≡ outcome (effect StartWrite active state threads) }
{
    if is_misuse(Call::StartWrite, state) {
        return Err(Failure::Misuse);
    }
    let clock = get(threads, active).clock.inc(active);
    track_write(clock, state)?;
    Ok(Effect {
        answer: None,
        state: written(true, clock, state),
        threads: own_count_up(threads, active),
    })
}

// loom's drop of Writing.
#[tactic(auto, unfolding(rules::specs::Cell::effect, rules::specs::Cell::doing, rules::specs::Cell::accessing))]
fn end_write(
    active: ThreadId,
    state: State,
    threads: [Thread; THREADS],
) -> Result<Effect<State>, Failure>
    ensures { result ≡ outcome (effect EndWrite active state threads) }
{
    if is_misuse(Call::EndWrite, state) {
        return Err(Failure::Misuse);
    }
    let clock = get(threads, active).clock;
    track_write(clock, state)?;
    Ok(Effect {
        answer: None,
        state: written(false, clock, state),
        threads,
    })
}

#[inline(never)]
pub fn effect(
    call: Call,
    active: ThreadId,
    state: State,
    threads: [Thread; THREADS],
) -> Result<Effect<State>, Failure>
    ensures { result ≡ outcome (effect call active state threads) }
{
    match call {
        Call::StartRead => start_read(active, state, threads),
        Call::EndRead => end_read(active, state, threads),
        Call::StartWrite => start_write(active, state, threads),
        Call::EndWrite => end_write(active, state, threads),
    }
}
