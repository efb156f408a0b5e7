// loom's rt/condvar.rs. The waiters stand oldest first; a place that none has is filled with 255.
use crate::access::Access;
use crate::object::ObjectId;
use clocks::ThreadId;

#[derive(Clone, Copy)]
pub enum Call {
    Wait(ObjectId),
    NotifyOne,
    NotifyAll,
}

pub const WAITERS: usize = 8;

#[derive(Clone, Copy)]
pub struct State {
    pub last_access: Access,
    pub count: u8,
    pub waiters: [ThreadId; WAITERS],
}
