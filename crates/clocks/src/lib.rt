// Clocks: one count for each thread (loom's rt/vv.rs), and the number by which a thread is named.
#![tactic(auto)]

mod clock;
mod thread;

pub use clock::{Ahead, Clock, THREADS, one_more};
pub use thread::ThreadId;
