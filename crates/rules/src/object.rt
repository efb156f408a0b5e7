// Objects, and operations that are announced on them (loom's rt/object.rs).
use crate::thread::Thread;
use crate::{arc, cell, condvar, mpsc, mutex, notify, rwlock};
use clocks::{THREADS, ThreadId};

// An object's number, and never a thread's (loom's object::Ref).
#[derive(Clone, Copy, PartialEq, Eq)]
pub struct ObjectId(pub u8);

// As many objects as a table may have.
pub const OBJECTS: usize = 16;

#[derive(Clone, Copy, PartialEq, Eq)]
pub enum Kind {
    Mutex,
    RwLock,
    Condvar,
    Notify,
    Channel,
    Arc,
    Cell,
    Nothing,
}

#[derive(Clone, Copy)]
pub enum Action {
    Arc(arc::Action),
    Channel(mpsc::Action),
    RwLock(rwlock::Action),
    Opaque,
}

#[derive(Clone, Copy)]
pub struct Operation {
    pub obj: ObjectId,
    pub action: Action,
}

// An object in the store: the state of its kind is in use, and the others stay as at the start.
#[derive(Clone, Copy)]
pub struct Entry {
    pub kind: Kind,
    pub mutex: mutex::State,
    pub rwlock: rwlock::State,
    pub condvar: condvar::State,
    pub notify: notify::State,
    pub channel: mpsc::State,
    pub arc: arc::State,
    pub cell: cell::State,
}

// How a step on an object fails.
#[derive(Clone, Copy)]
pub enum Failure {
    Misuse,
    NoRoom,
    Race(ThreadId),
}

// What an operation leaves: its thread's last answer, or none where the one before stays; its object's state, and the threads.
#[derive(Clone, Copy)]
pub struct Effect<S> {
    pub answer: Option<u16>,
    pub state: S,
    pub threads: [Thread; THREADS],
}
