// The things that document 01 speaks of: threads, the seven kinds of objects, tables, worlds and answers, one module a file of loom's
// or a part of 01. What happens to them is defined in specs/, and done in the crates above.
#![tactic(auto)]

pub mod access;
pub mod answer;
pub mod arc;
pub mod cell;
pub mod condvar;
pub mod mpsc;
pub mod mutex;
pub mod notify;
pub mod object;
pub mod rwlock;
pub mod table;
pub mod thread;
pub mod world;
