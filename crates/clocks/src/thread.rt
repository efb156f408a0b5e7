// A thread's number, and never an object's (loom's thread::Id).
#[derive(Clone, Copy, PartialEq, Eq)]
pub struct ThreadId(pub u8);
