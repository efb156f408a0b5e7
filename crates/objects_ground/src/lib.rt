// What every object stands on: accesses, counts that stay at their type's ends, how a step ended, queues in an array.
#![tactic(auto)]

pub mod access;
pub mod count;
pub mod ending;
pub mod queue;
