// The state of a run, and what a decision comes to.
use crate::answer::Answer;
use crate::object::{Entry, OBJECTS};
use crate::thread::Thread;
use clocks::{THREADS, ThreadId};

#[derive(Clone, Copy)]
pub struct World {
    pub threads: [Thread; THREADS],
    pub objects: [Entry; OBJECTS],
    pub turn: u16,
    // The thread that is asked whether its wait ends spuriously.
    pub asked: Option<ThreadId>,
}

#[derive(Clone, Copy)]
pub enum Step {
    // The decision is not allowed, and the world is as it was.
    Refused,
    // The world is the one to show.
    Done(Answer),
    // The next decision is wanted in the world.
    Wants,
}

#[derive(Clone, Copy)]
pub struct Decided {
    pub step: Step,
    pub world: World,
}
