// What is given back, and the six numbers of each answer.
use crate::object::ObjectId;
use clocks::ThreadId;

// Where a step failed.
#[derive(Clone, Copy)]
pub struct Spot {
    pub thread: ThreadId,
    pub position: u8,
    pub object: ObjectId,
}

#[derive(Clone, Copy)]
pub enum Answer {
    Clean,
    Race(Spot, ThreadId),
    Deadlock(Spot),
    Leak(ObjectId),
    Misuse(Spot),
    NoRoom(Spot),
    More,
    NoLaterList,
    ListWritten(usize),
    BadRecord(usize),
    TooMany(usize),
    BadObject(usize),
    NotAllowed(usize),
    Surplus(usize),
    TooShort(usize),
    NotComplete,
}

#[derive(Clone, Copy)]
pub struct Numbers {
    pub number: u8,
    pub place: usize,
    pub thread: u8,
    pub position: u8,
    pub object: u8,
    pub other: u16,
}
