// loom's rt/mpsc.rs. The messages' clocks stand oldest first; a place that no message has holds the zero clock.
#![tactic(auto)]

ghost use Rattle.std.specs.Prelude.{◌≡◌};
ghost use Rattle.rules.specs.declared.mpsc.Call.TheVariants.{Send, Recv};
ghost use Rattle.rules.specs.Ground.{outcome};
ghost use Rattle.rules.specs.Mpsc.{new, is_empty, leaks, action_of, is_disabled, last_dependent_access, set_last_access, effect};

use clocks::{Clock, THREADS, ThreadId};
use objects_ground::access;
use objects_ground::queue::pop_front;
use objects_threads::{others, sync_load, sync_store};
use rules::access::Access;
use rules::mpsc::{Action, Call, MESSAGES, State};
use rules::object::{Effect, Failure, ObjectId};
use rules::thread::{Change, Thread};

pub fn new() -> State
    ensures { result ≡ new }
{
    State {
        msg_cnt: 0,
        last_send_access: access::new(),
        last_recv_access: access::new(),
        sender_synchronize: Clock::new(),
        receiver_synchronize: [Clock::new(); MESSAGES],
    }
}

fn is_empty(state: State) -> bool
    ensures { result ≡ is_empty state }
{
    state.msg_cnt == 0
}

// loom's check_for_leaks.
pub fn leaks(state: State) -> bool
    ensures { result ≡ leaks state }
{
    state.msg_cnt != 0
}

pub fn action_of(call: Call) -> Action
    ensures { result ≡ action_of call }
{
    match call {
        Call::Send => Action::MsgSend,
        Call::Recv => Action::MsgRecv,
    }
}

// A receive blocks at its announcement if there is no message.
pub fn is_disabled(call: Call, state: State) -> bool
    ensures { result ≡ is_disabled call state }
{
    matches!(call, Call::Recv) && is_empty(state)
}

// The last access of the same action.
pub fn last_dependent_access(action: Action, state: State) -> Access
    ensures { result ≡ last_dependent_access action state }
{
    match action {
        Action::MsgSend => state.last_send_access,
        Action::MsgRecv => state.last_recv_access,
    }
}

pub fn set_last_access(action: Action, access: Access, state: State) -> State
    ensures { result ≡ set_last_access action access state }
{
    match action {
        Action::MsgSend => State {
            last_send_access: access,
            ..state
        },
        Action::MsgRecv => State {
            last_recv_access: access,
            ..state
        },
    }
}

// Stores to the sender clock, and queues a copy of it. A 17th message finds no room.
#[tactic(auto, unfolding(rules::specs::Mpsc::doing, rules::specs::Mpsc::effect))]
fn send(
    active: ThreadId,
    object: ObjectId,
    state: State,
    threads: [Thread; THREADS],
) -> Result<Effect<State>, Failure>
    ensures { result ≡ outcome (effect Send active object state threads) }
{
    let i = state.msg_cnt as usize;
    if MESSAGES <= i {
        return Err(Failure::NoRoom);
    }
    let sender = sync_store(threads, active, state.sender_synchronize);
    let mut messages = state.receiver_synchronize;
    messages[i] = sender;
    Ok(Effect {
        answer: None,
        state: State {
            msg_cnt: state.msg_cnt + 1,
            sender_synchronize: sender,
            receiver_synchronize: messages,
            ..state
        },
        // The first message wakes every other thread that is announced on the channel.
        threads: if i == 0 {
            others(threads, Change::Wake, active, object)
        } else {
            threads
        },
    })
}

// Takes the oldest message, and loads its clock; of an empty channel it is misuse.
#[tactic(auto, unfolding(rules::specs::Mpsc::doing, rules::specs::Mpsc::effect))]
fn recv(
    active: ThreadId,
    object: ObjectId,
    state: State,
    threads: [Thread; THREADS],
) -> Result<Effect<State>, Failure>
    ensures { result ≡ outcome (effect Recv active object state threads) }
{
    if state.msg_cnt == 0 {
        return Err(Failure::Misuse);
    }
    let messages = state.receiver_synchronize;
    let loaded = sync_load(threads, active, messages[0]);
    let left = state.msg_cnt - 1;
    Ok(Effect {
        answer: None,
        state: State {
            msg_cnt: left,
            receiver_synchronize: pop_front(messages, Clock::new()),
            ..state
        },
        // The last message blocks every other announced receiver.
        threads: if left == 0 {
            others(loaded, Change::BlockReceivers, active, object)
        } else {
            loaded
        },
    })
}

#[inline(never)]
pub fn effect(
    call: Call,
    active: ThreadId,
    object: ObjectId,
    state: State,
    threads: [Thread; THREADS],
) -> Result<Effect<State>, Failure>
    ensures { result ≡ outcome (effect call active object state threads) }
{
    match call {
        Call::Send => send(active, object, state, threads),
        Call::Recv => recv(active, object, state, threads),
    }
}
