// What a thread may do next, and the object that it is about. The steps themselves are in `turns_quiet` and `turns_loud`.
#![tactic(auto)]

ghost use Rattle.std.specs.Prelude.{◌≡◌, ◌-◌};
ghost use Rattle.lists.specs.Greedy.{seek};
ghost use Rattle.rules.specs.Turn.{mutex_of, is_allowed};
ghost use Rattle.rules.specs.Walk.{decisions};
ghost use Rattle.turns_steps.specs.Quiet.{who, is_begun, subject_in, place_in, allowed_in};
ghost use Rattle.rules.specs.Limits.{op_places};
ghost use Rattle.turns_steps.specs.Step.{first_subject, place_at, below, chosen};

use clocks::{THREADS, ThreadId};
use objects_calls::wait_of;
use objects_record::is_runnable;
use objects_threads::get;
use rules::answer::Answer;
use rules::object::ObjectId;
use rules::table::{OPERATIONS, Op, PLACES};
use rules::thread::{Phase, State, Thread};

// What a thread does next.
#[derive(Clone, Copy)]
pub enum Move {
    Begins(ThreadId),
    // It was asked, and is told whether it wakes spuriously.
    Answers(ThreadId, bool),
    // It goes on with the operation at this position.
    Goes(ThreadId, u8),
    // Its wait is queued, and goes on to the mutex.
    Waits(ThreadId, ObjectId),
}

#[derive(Clone, Copy)]
pub enum Acting {
    // The next decision is wanted.
    Nobody,
    Moves(Move),
    // The operation is in effect and leaves this answer: its access is recorded, and the thread goes on.
    InEffect(Move, Op, Option<u16>),
    // The turn is over.
    Over,
    AllEnded,
    Done(Answer),
}

// What a quiet step comes to: who acts next, its thread, and the rest of the world.
#[derive(Clone, Copy)]
pub struct Quiet {
    pub acting: Acting,
    pub thread: Thread,
    pub turn: u16,
    pub asked: Option<ThreadId>,
}

pub fn who(m: Move) -> ThreadId
    ensures { result ≡ who m }
{
    match m {
        Move::Begins(t) | Move::Answers(t, _) | Move::Goes(t, _) | Move::Waits(t, _) => t,
    }
}

pub fn is_begun(m: Move) -> bool
    ensures { result ≡ is_begun m }
{
    matches!(m, Move::Begins(_))
}

pub fn mutex_of(wait: Option<ObjectId>) -> ObjectId
    ensures { result ≡ mutex_of wait }
{
    wait.unwrap_or(ObjectId(255))
}

// The object that a turn begins with, by the thread's phase.
fn first_subject(phase: Phase, op: Op) -> ObjectId
    ensures { result ≡ first_subject phase op }
{
    match phase {
        Phase::Nothing | Phase::Announced(_) => op.object,
        Phase::Parked => mutex_of(wait_of(op.call)),
        Phase::Retaking(p) => p.obj,
    }
}

// The object that a move is about, by its thread's phase.
pub fn subject(phase: Phase, m: Move, op: Op) -> ObjectId
    ensures { result ≡ subject_in phase m op }
{
    match m {
        Move::Begins(_) => first_subject(phase, op),
        Move::Answers(_, _) | Move::Goes(_, _) => op.object,
        Move::Waits(_, o) => o,
    }
}

// Where the operation at position p of a thread stands among the table's, if there is one.
fn place_at(counts: [u8; THREADS], t: ThreadId, p: u8) -> Option<usize>
    ensures { result ≡ below op_places (place_at counts t p) }
{
    let i = t.0 as usize;
    if i < THREADS && p < counts[i] {
        let k = OPERATIONS * i + (p as usize);
        if k < PLACES {
            return Some(k);
        }
    }
    None
}

pub fn place_of(counts: [u8; THREADS], position: u8, m: Move) -> Option<usize>
    ensures { result ≡ below op_places (place_in counts position m) }
{
    match m {
        Move::Begins(t) | Move::Answers(t, _) => place_at(counts, t, position),
        Move::Goes(t, p) => place_at(counts, t, p),
        Move::Waits(_, _) => None,
    }
}

// A decision names a runnable thread, whose state this is, or answers the question with 0 or 1.
pub fn allowed_in(asked: Option<ThreadId>, state: State, d: u8) -> bool
    ensures { result ≡ allowed_in asked state d }
{
    match asked {
        None => is_runnable(state),
        Some(_) => d <= 1,
    }
}

// The move that a decision chooses.
pub fn chosen(asked: Option<ThreadId>, d: u8) -> Move
    ensures { result ≡ chosen asked d }
{
    match asked {
        None => Move::Begins(ThreadId(d)),
        Some(t) => Move::Answers(t, d == 1),
    }
}

// Whether a decision is allowed, by the state of the thread that it names.
fn is_allowed(asked: Option<ThreadId>, threads: [Thread; THREADS], d: u8) -> bool
    ensures { result ≡ is_allowed asked threads d }
{
    allowed_in(asked, get(threads, ThreadId(d)).state, d)
}

// The least allowed decision that is `from` or more, if there is one.
pub fn least(asked: Option<ThreadId>, threads: [Thread; THREADS], from: usize) -> Option<u8>
    ensures { result ≡ below decisions (seek (is_allowed asked threads) (decisions - from) from) }
{
    for d in from..THREADS {
        if is_allowed(asked, threads, d as u8) {
            return Some(d as u8);
        }
    }
    None
}
