// loom's rt/rwlock.rs. The readers are a set: a mask with a bit for each thread.
use crate::access::Access;
use clocks::{Clock, ThreadId};

#[derive(Clone, Copy)]
pub enum Call {
    AcquireReadLock,
    AcquireWriteLock,
    TryAcquireReadLock,
    TryAcquireWriteLock,
    ReleaseReadLock,
    ReleaseWriteLock,
}

#[derive(Clone, Copy)]
pub enum Action {
    Read,
    Write,
}

#[derive(Clone, Copy)]
pub enum Locked {
    Read(u16),
    Write(ThreadId),
}

#[derive(Clone, Copy)]
pub struct State {
    pub lock: Option<Locked>,
    pub last_access: Access,
    pub synchronize: Clock,
}
