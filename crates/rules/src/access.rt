// The last access of its kind to an object: the turn's number, and the dependence clock then (loom's rt/access.rs).
// An access that never was has turn 0 and the zero clock.
use clocks::Clock;

#[derive(Clone, Copy)]
pub struct Access {
    pub path_id: u16,
    pub version: Clock,
}
