// The readers of an RwLock are a set: a mask with a bit for each thread (loom's `HashSet` of rt/rwlock.rs).
#![tactic(auto)]

ghost use Rattle.std.specs.Prelude.{◌≡◌};
ghost use Rattle.rules.specs.RwLock.{reader_bit, is_reader, with_reader, without_reader};

use clocks::{THREADS, ThreadId};

// A thread's bit of the mask; a number that no thread has has none.
fn reader_bit(id: ThreadId) -> u16
    ensures { result ≡ reader_bit id }
{
    if usize::from(id.0) < THREADS {
        1 << id.0
    } else {
        0
    }
}

fn is_reader(readers: u16, id: ThreadId) -> bool
    ensures { result ≡ is_reader readers id }
{
    readers & reader_bit(id) != 0
}

// A set: a thread that is in it already is not counted again.
#[tactic(auto, unfolding(rules::specs::RwLock::with_reader))]
pub fn with_reader(readers: u16, id: ThreadId) -> u16
    ensures { result ≡ with_reader readers id }
{
    if is_reader(readers, id) {
        return readers;
    }
    readers + reader_bit(id)
}

#[tactic(auto, using(rules::proofs::RwLockLaws::member_bit), unfolding(rules::specs::RwLock::without_reader))]
pub fn without_reader(readers: u16, id: ThreadId) -> u16
    ensures { result ≡ without_reader readers id }
{
    if is_reader(readers, id) {
        return readers - reader_bit(id);
    }
    readers
}
