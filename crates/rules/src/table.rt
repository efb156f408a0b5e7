// A table: its objects, and each thread's operations.
use crate::mpsc::MESSAGES;
use crate::object::{Kind, OBJECTS, ObjectId};
use crate::{arc, cell, condvar, mpsc, mutex, notify, rwlock};
use clocks::THREADS;

#[derive(Clone, Copy)]
pub enum Call {
    Mutex(mutex::Call),
    RwLock(rwlock::Call),
    Condvar(condvar::Call),
    Notify(notify::Call),
    Channel(mpsc::Call),
    Arc(arc::Call),
    Cell(cell::Call),
}

// An operation as a table has it.
#[derive(Clone, Copy)]
pub struct Op {
    pub call: Call,
    pub object: ObjectId,
}

// An object as a table has it.
#[derive(Clone, Copy)]
pub struct Made {
    pub kind: Kind,
    pub spurious: bool,
}

// As many operations as a thread may have, and the places for those of all threads.
pub const OPERATIONS: usize = 32;

pub const PLACES: usize = OPERATIONS * THREADS;

// No complete list is longer.
pub const LIST: usize = 97 * THREADS;

// No sheet is longer: a record for each thread, and one for each object, a channel's the longest.
pub const SHEET: usize = (5 + 2 * THREADS) * THREADS + (2 + THREADS + MESSAGES * THREADS) * OBJECTS;

// The operations of thread t are ops[OPERATIONS * t ..], counts[t] of them.
#[derive(Clone, Copy)]
pub struct Table {
    pub objects: [Made; OBJECTS],
    pub object_count: u8,
    pub ops: [Op; PLACES],
    pub counts: [u8; THREADS],
    pub thread_count: u8,
}

// One record of a table.
#[derive(Clone, Copy)]
pub enum Record {
    Object(Made),
    Thread,
    Operation(Op),
}
