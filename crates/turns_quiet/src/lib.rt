// The steps that leave their object as it is: each changes its own thread at most, so that no object and no other thread is handed on.
#![tactic(auto)]

ghost use Rattle.std.specs.Prelude.{◌≡◌};
ghost use Rattle.turns_steps.specs.Quiet.{rests, stops, is_quiet, is_barred, announced_on, retaken_on, over, begins, goes_on, quietly};

use clocks::ThreadId;
use objects::is_disabled;
use objects_calls::{action_of, branch_disable, is_free, wait_of};
use objects_ground::count::one_more;
use objects_record::{with_phase, with_state};
use rules::mutex;
use rules::object::{Action, Entry, ObjectId, Operation};
use rules::table::{Call, Op};
use rules::thread::{Phase, State, Thread};
use turns_steps::{Acting, Move, Quiet, mutex_of};

// A turn that begins with no announced operation.
fn rests(phase: Phase) -> bool
    ensures { result ≡ rests phase }
{
    matches!(phase, Phase::Nothing | Phase::Parked)
}

// A thread stops where it ends, or has to announce or ask.
#[tactic(auto, unfolding(turns_steps::specs::Quiet::stops))]
fn stops(left: bool, call: Call) -> bool
    ensures { result ≡ stops left call }
{
    !left || !is_free(call)
}

pub fn is_quiet(phase: Phase, m: Move, left: bool, call: Call) -> bool
    ensures { result ≡ is_quiet phase m left call }
{
    match m {
        Move::Begins(_) => rests(phase),
        Move::Answers(_, spur) => !spur,
        Move::Goes(_, _) => stops(left, call),
        Move::Waits(_, _) => false,
    }
}

// Where the thread is blocked then: a turn that begins can only retake a mutex.
#[tactic(auto, unfolding(turns_steps::specs::Quiet::is_barred, rules::specs::Effect::is_disabled))]
pub fn is_barred(begun: bool, call: Call, e: Entry) -> bool
    ensures { result ≡ is_barred begun call e }
{
    if begun {
        return is_disabled(Call::Mutex(mutex::Call::AcquireLock), e);
    }
    is_disabled(call, e)
}

fn announced(op: Op, barred: bool, x: Thread) -> Thread
    ensures { result ≡ announced_on op barred x }
{
    let phase = Phase::Announced(Operation {
        obj: op.object,
        action: action_of(op.call),
    });
    branch_disable(phase, barred, x)
}

fn retaken(m: ObjectId, barred: bool, x: Thread) -> Thread
    ensures { result ≡ retaken_on m barred x }
{
    let phase = Phase::Retaking(Operation {
        obj: m,
        action: Action::Opaque,
    });
    branch_disable(phase, barred, x)
}

fn over(thread: Thread, turn: u16, asked: Option<ThreadId>) -> Quiet
    ensures { result ≡ over thread turn asked }
{
    Quiet {
        acting: Acting::Over,
        thread,
        turn,
        asked,
    }
}

#[tactic(auto, unfolding(turns_steps::specs::Quiet::begins))]
fn begins(
    phase: Phase,
    t: ThreadId,
    wait: Option<ObjectId>,
    barred: bool,
    x: Thread,
    n: u16,
    a: Option<ThreadId>,
) -> Quiet
    ensures { result ≡ begins phase t wait barred x n a }
{
    match phase {
        Phase::Nothing => Quiet {
            acting: Acting::Moves(Move::Goes(t, x.position)),
            thread: x,
            turn: one_more(n),
            asked: a,
        },
        Phase::Parked => over(retaken(mutex_of(wait), barred, x), one_more(n), a),
        Phase::Announced(_) | Phase::Retaking(_) => over(x, n, a),
    }
}

#[tactic(auto, unfolding(turns_steps::specs::Quiet::goes_on))]
fn goes_on(
    t: ThreadId,
    left: bool,
    op: Op,
    barred: bool,
    ask: bool,
    x: Thread,
    n: u16,
    a: Option<ThreadId>,
) -> Quiet
    ensures { result ≡ goes_on t left op barred ask x n a }
{
    if !left {
        return over(
            with_phase(with_state(x, State::Ended), Phase::Nothing),
            n,
            a,
        );
    }
    if ask {
        return Quiet {
            acting: Acting::Nobody,
            thread: x,
            turn: n,
            asked: Some(t),
        };
    }
    over(announced(op, barred, x), n, a)
}

// The step of a thread x, which is barred or asked or neither.
#[tactic(auto, unfolding(turns_steps::specs::Quiet::quietly))]
pub fn quietly(
    m: Move,
    left: bool,
    op: Op,
    barred: bool,
    ask: bool,
    x: Thread,
    n: u16,
    a: Option<ThreadId>,
) -> Quiet
    ensures { result ≡ quietly m left op barred ask x n a }
{
    match m {
        Move::Begins(t) => begins(x.phase, t, wait_of(op.call), barred, x, n, a),
        Move::Answers(_, _) => over(announced(op, barred, x), n, None),
        Move::Goes(t, _) => goes_on(t, left, op, barred, ask, x, n, a),
        Move::Waits(_, _) => over(x, n, a),
    }
}
