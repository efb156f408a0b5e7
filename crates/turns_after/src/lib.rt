// After the turn: the leak check, a deadlock, or the next decision.
#![tactic(auto)]

ghost use Rattle.std.specs.Prelude.{◌≡◌};
ghost use Rattle.rules.specs.Turn.{all_ended, any_runnable, leak_check, announced_object, stuck};
ghost use Rattle.turns_steps.specs.Step.{after};

use clocks::{THREADS, ThreadId};
use objects::leaks;
use objects_record::{is_ended, is_runnable};
use rules::answer::{Answer, Spot};
use rules::object::{Entry, OBJECTS, ObjectId};
use rules::thread::{Phase, Thread};
use turns_steps::Acting;

fn all_ended(threads: [Thread; THREADS]) -> bool
    ensures { result ≡ all_ended threads }
{
    threads.iter().all(|t| is_ended(t.state))
}

fn any_runnable(threads: [Thread; THREADS]) -> bool
    ensures { result ≡ any_runnable threads }
{
    threads.iter().any(|t| is_runnable(t.state))
}

// The first object that leaks.
#[tactic(auto, using(rules::proofs::AfterLaws::leak_passed, rules::proofs::AfterLaws::leak_here), unfolding(rules::specs::Turn::leak_check))]
pub fn leak_check(objects: [Entry; OBJECTS]) -> Answer
    ensures { result ≡ leak_check 0 objects }
{
    for (k, e) in objects.iter().enumerate() {
        if leaks(e.kind, *e) {
            return Answer::Leak(ObjectId(k as u8));
        }
    }
    Answer::Clean
}

fn announced_object(phase: Phase) -> ObjectId
    ensures { result ≡ announced_object phase }
{
    match phase {
        Phase::Announced(op) | Phase::Retaking(op) => op.obj,
        Phase::Nothing | Phase::Parked => ObjectId(255),
    }
}

// The lowest thread that has not ended, where it stands.
#[tactic(auto, using(crate::proofs::Searches::stuck_steps), unfolding(rules::specs::Turn::stuck))]
fn stuck(threads: [Thread; THREADS]) -> Spot
    ensures { result ≡ stuck 0 threads }
{
    for (k, t) in threads.iter().enumerate() {
        if !is_ended(t.state) {
            return Spot {
                thread: ThreadId(k as u8),
                position: t.position,
                object: announced_object(t.phase),
            };
        }
    }
    Spot {
        thread: ThreadId(255),
        position: 255,
        object: ObjectId(255),
    }
}

// Who acts after a turn.
#[tactic(auto, unfolding(turns_steps::specs::Step::after))]
pub fn after(threads: [Thread; THREADS]) -> Acting
    ensures { result ≡ after threads }
{
    if all_ended(threads) {
        return Acting::AllEnded;
    }
    if any_runnable(threads) {
        return Acting::Nobody;
    }
    Acting::Done(Answer::Deadlock(stuck(threads)))
}
