// The pass over thread records that are lent, each changed by its own small function (loom's rt/thread.rs, and its loops over `threads.iter_mut()`).
#![tactic(auto)]

ghost use Rattle.std.specs.Prelude.{◌≡◌};
ghost use Rattle.clocks.specs.Pass.{pass_from};
ghost use Rattle.rules.specs.Ground.{set_runnable, set_blocked, unpark, is_write, is_recv, action_of, changed};
ghost use Rattle.objects_pass.specs.Passes.{pass_at};

use clocks::{Clock, ThreadId};
use objects_record::is_on;
use rules::object::{Action, ObjectId};
use rules::thread::{Change, Phase, Thread};
use rules::{mpsc, rwlock};

// What a pass is about; `by` is the active thread's clock.
#[derive(Clone, Copy)]
pub struct Pass {
    pub change: Change,
    pub active: ThreadId,
    pub object: ObjectId,
    pub by: Clock,
}

fn action_of(p: Phase) -> Action
    ensures { result ≡ action_of p }
{
    match p {
        Phase::Announced(op) | Phase::Retaking(op) => op.action,
        Phase::Nothing | Phase::Parked => Action::Opaque,
    }
}

fn is_write(a: Action) -> bool
    ensures { result ≡ is_write a }
{
    matches!(a, Action::RwLock(rwlock::Action::Write))
}

fn is_recv(a: Action) -> bool
    ensures { result ≡ is_recv a }
{
    matches!(a, Action::Channel(mpsc::Action::MsgRecv))
}

// Drops a stored unpark.
fn set_runnable(t: &mut Thread)
    ensures { t.new ≡ set_runnable t.old }
{
    *t = objects_record::set_runnable(*t);
}

// Drops a stored unpark.
fn set_blocked(t: &mut Thread)
    ensures { t.new ≡ set_blocked t.old }
{
    *t = objects_record::set_blocked(*t);
}

// The clock `by` is joined in, also into a thread that has ended.
fn unpark(t: &mut Thread, by: Clock)
    ensures { t.new ≡ unpark by t.old }
{
    *t = objects_record::unpark(*t, by);
}

// What a change does to a thread that is announced on the object; where it stays it is not written.
#[tactic(auto, unfolding(rules::specs::Ground::changed))]
fn change(t: &mut Thread, p: Pass)
    ensures { t.new ≡ changed p.change p.by t.old }
{
    match p.change {
        Change::Wake => set_runnable(t),
        Change::Block => set_blocked(t),
        Change::BlockWriters if is_write(action_of(t.phase)) => set_blocked(t),
        Change::BlockReceivers if is_recv(action_of(t.phase)) => set_blocked(t),
        Change::BlockWriters | Change::BlockReceivers => {}
        Change::Unpark => unpark(t, p.by),
    }
}

// The record of thread `k`, changed if it is another thread's that is announced on the object.
#[tactic(auto, unfolding(rules::specs::Ground::changed_at))]
fn touch(t: &mut Thread, k: usize, p: Pass)
    ensures { t.new ≡ pass_at p k t.old }
{
    if k != usize::from(p.active.0) && is_on(t.phase, p.object) {
        change(t, p);
    }
}

// Every other thread that is announced on the object, changed; the record at index k is thread k's.
#[tactic(auto, using(clocks::specs::Pass::turned, clocks::specs::Pass::ended))]
pub fn pass_over(threads: &mut [Thread], p: Pass)
    ensures { threads.new ≡ pass_from (pass_at p) 0 threads.old }
{
    for (k, t) in threads.iter_mut().enumerate() {
        touch(t, k, p);
    }
}
