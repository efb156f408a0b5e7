// All threads, and the pass over them (loom's rt/thread.rs, rt/synchronize.rs).
#![tactic(auto)]

ghost use Rattle.std.specs.Prelude.{◌≡◌, ◌<◌};
ghost use Rattle.std.specs.Fn.{FnOnceReturnsAtMut};
ghost use Rattle.clocks.specs.Clock.{max_threads};
ghost use Rattle.rules.specs.declared.thread.Thread.{Thread};
ghost use Rattle.rules.specs.Ground.{thread_at, put_thread, unpark_thread, others, stored, loaded, own_count_up};

use clocks::{Clock, THREADS, ThreadId};
use objects_pass::{Pass, pass_over};
use objects_record::{absent, unpark};
use rules::object::ObjectId;
use rules::thread::{Change, Thread};

// A thread by its number; one that there is none of is absent.
pub fn get(threads: [Thread; THREADS], id: ThreadId) -> Thread
    ensures { result ≡ thread_at threads id }
{
    threads
        .get(usize::from(id.0))
        .copied()
        .unwrap_or_else(absent)
}

// The threads with one of them changed; a number that none has changes nothing.
fn with_thread<F: FnOnce(&mut Thread)>(
    mut threads: [Thread; THREADS],
    id: ThreadId,
    f: F,
) -> [Thread; THREADS]
    requires { F.IsAlwaysCallable f }
    ensures { (t : Thread) × (id.0 < max_threads → FnOnceReturnsAtMut F.FnOnce f (thread_at threads id) tt t) × (result ≡ put_thread threads id t) }
{
    let i = usize::from(id.0);
    if i < THREADS {
        f(&mut threads[i]);
    }
    threads
}

// Every other thread that is announced on the object, changed. The records of the rest are not written.
#[tactic(auto, unfolding(rules::specs::Ground::others))]
pub fn others(
    mut threads: [Thread; THREADS],
    change: Change,
    active: ThreadId,
    object: ObjectId,
) -> [Thread; THREADS]
    ensures { result ≡ others change active object threads }
{
    let by = get(threads, active).clock;
    pass_over(
        &mut threads,
        Pass {
            change,
            active,
            object,
            by,
        },
    );
    threads
}

// The unpark of one thread; of the active one it does nothing.
#[tactic(auto, unfolding(rules::specs::Ground::unpark_thread))]
pub fn unpark_thread(
    threads: [Thread; THREADS],
    active: ThreadId,
    id: ThreadId,
) -> [Thread; THREADS]
    ensures { result ≡ unpark_thread active id threads }
{
    if id == active {
        return threads;
    }
    let by = get(threads, active).clock;
    with_thread(threads, id, |t| *t = unpark(*t, by))
}

// Store (Release): the active thread's clock is joined into the object's.
pub fn sync_store(threads: [Thread; THREADS], active: ThreadId, clock: Clock) -> Clock
    ensures { result ≡ stored (thread_at threads active).clock clock }
{
    clock.join(get(threads, active).clock)
}

// Load (Acquire): the object's clock is joined into the active thread's.
#[tactic(auto, unfolding(rules::specs::Ground::loaded))]
pub fn sync_load(threads: [Thread; THREADS], active: ThreadId, clock: Clock) -> [Thread; THREADS]
    ensures { result ≡ loaded active clock threads }
{
    with_thread(threads, active, |t| t.clock = t.clock.join(clock))
}

// The active thread's own count rises by one.
pub fn own_count_up(threads: [Thread; THREADS], active: ThreadId) -> [Thread; THREADS]
    ensures { result ≡ put_thread threads active (own_count_up active (thread_at threads active)) }
{
    with_thread(threads, active, |t| t.clock = t.clock.inc(active))
}
