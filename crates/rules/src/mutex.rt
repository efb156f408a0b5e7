// loom's rt/mutex.rs.
use crate::access::Access;
use clocks::{Clock, ThreadId};

#[derive(Clone, Copy)]
pub enum Call {
    AcquireLock,
    TryAcquireLock,
    ReleaseLock,
}

#[derive(Clone, Copy)]
pub struct State {
    pub lock: Option<ThreadId>,
    pub last_access: Access,
    pub synchronize: Clock,
}
