// Thread records (loom's rt/thread.rs).
use crate::object::Operation;
use clocks::Clock;

#[derive(Clone, Copy)]
pub enum State {
    Runnable,
    // Runnable, with a stored unpark.
    Unparked,
    Blocked,
    Ended,
}

// What a thread has announced. A parked thread has announced nothing; a retaking one takes back the mutex of its condvar wait.
#[derive(Clone, Copy)]
pub enum Phase {
    Nothing,
    Announced(Operation),
    Parked,
    Retaking(Operation),
}

#[derive(Clone, Copy)]
pub struct Thread {
    pub state: State,
    pub phase: Phase,
    // Operations done.
    pub position: u8,
    pub last_answer: u16,
    pub clock: Clock,
    pub dependence: Clock,
}

// How a pass changes each other thread that is announced on an object.
#[derive(Clone, Copy)]
pub enum Change {
    Wake,
    Block,
    BlockWriters,
    BlockReceivers,
    Unpark,
}
