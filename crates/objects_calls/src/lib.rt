// An operation before it takes effect: whether it is announced, and as what, a line for each kind (loom's rt/object.rs).
#![tactic(auto)]

ghost use Rattle.std.specs.Prelude.{◌≡◌};
ghost use Rattle.rules.specs.Effect.{is_free, action_of, wait_of};
ghost use Rattle.rules.specs.Object.{announced};

use objects_record::{set_blocked, with_phase};
use rules::object::{Action, ObjectId};
use rules::table::Call;
use rules::thread::{Phase, Thread};

// The operation is announced; where it cannot go on, the thread is blocked.
pub fn branch_disable(phase: Phase, disable: bool, t: Thread) -> Thread
    ensures { result ≡ announced phase disable t }
{
    if disable {
        return set_blocked(with_phase(t, phase));
    }
    with_phase(t, phase)
}

// Releases and all cell operations need no announcement.
pub fn is_free(call: Call) -> bool
    ensures { result ≡ is_free call }
{
    match call {
        Call::Mutex(c) => objects_mutex::is_free(c),
        Call::RwLock(c) => objects_rwlock::is_free(c),
        Call::Condvar(_) => false,
        Call::Notify(_) => false,
        Call::Channel(_) => false,
        Call::Arc(_) => false,
        Call::Cell(_) => true,
    }
}

// The action as which an operation is announced.
pub fn action_of(call: Call) -> Action
    ensures { result ≡ action_of call }
{
    match call {
        Call::Mutex(_) => Action::Opaque,
        Call::RwLock(c) => Action::RwLock(objects_rwlock::action_of(c)),
        Call::Condvar(_) => Action::Opaque,
        Call::Notify(_) => Action::Opaque,
        Call::Channel(c) => Action::Channel(objects_mpsc::action_of(c)),
        Call::Arc(c) => Action::Arc(objects_arc::action_of(c)),
        Call::Cell(_) => Action::Opaque,
    }
}

// The mutex of a condvar wait.
pub fn wait_of(call: Call) -> Option<ObjectId>
    ensures { result ≡ wait_of call }
{
    match call {
        Call::Condvar(c) => objects_condvar::wait_of(c),
        Call::Mutex(_) => None,
        Call::RwLock(_) => None,
        Call::Notify(_) => None,
        Call::Channel(_) => None,
        Call::Arc(_) => None,
        Call::Cell(_) => None,
    }
}
