// The steps that change their object: an operation's effect, a spurious wake, the second half of a condvar wait. What takes effect is done in the
// run, where the object stands; here is what goes before it, and in `turns_onward` what follows it.
#![tactic(auto)]

ghost use Rattle.std.specs.Prelude.{◌≡◌};
ghost use Rattle.turns_steps.specs.Loud.{again, op_in, turn_in, asked_in, wakes_spuriously, version_in};

use clocks::{Clock, ThreadId};
use objects::dependence;
use objects_ground::count::one_more;
use rules::mutex;
use rules::object::Entry;
use rules::table::{Call, Op};
use rules::thread::{Phase, Thread};
use turns_steps::Move;

// A retaking thread takes its mutex.
fn again(phase: Phase, op: Op) -> Op
    ensures { result ≡ again phase op }
{
    match phase {
        Phase::Nothing | Phase::Announced(_) | Phase::Parked => op,
        Phase::Retaking(p) => Op {
            call: Call::Mutex(mutex::Call::AcquireLock),
            object: p.obj,
        },
    }
}

// The operation that takes effect.
pub fn op_in(phase: Phase, m: Move, op: Op) -> Op
    ensures { result ≡ op_in phase m op }
{
    match m {
        Move::Begins(_) => again(phase, op),
        Move::Answers(_, _) | Move::Goes(_, _) => op,
        Move::Waits(_, object) => Op {
            call: Call::Mutex(mutex::Call::ReleaseLock),
            object,
        },
    }
}

pub fn wakes_spuriously(m: Move) -> bool
    ensures { result ≡ wakes_spuriously m }
{
    matches!(m, Move::Answers(_, _))
}

pub fn turn_in(m: Move, n: u16) -> u16
    ensures { result ≡ turn_in m n }
{
    match m {
        Move::Begins(_) => one_more(n),
        Move::Answers(_, _) | Move::Goes(_, _) | Move::Waits(_, _) => n,
    }
}

pub fn asked_in(m: Move, asked: Option<ThreadId>) -> Option<ThreadId>
    ensures { result ≡ asked_in m asked }
{
    match m {
        Move::Answers(_, _) => None,
        Move::Begins(_) | Move::Goes(_, _) | Move::Waits(_, _) => asked,
    }
}

// The dependence clock of the thread that acts.
pub fn version(m: Move, call: Call, e: Entry, x: Thread) -> Clock
    ensures { result ≡ version_in m call e x }
{
    match m {
        Move::Begins(t) => dependence(t, call, e, x),
        Move::Answers(_, _) | Move::Goes(_, _) | Move::Waits(_, _) => x.dependence,
    }
}
