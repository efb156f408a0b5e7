// loom's rt/notify.rs.
use crate::access::Access;
use clocks::Clock;

#[derive(Clone, Copy)]
pub enum Call {
    Notify,
    Wait,
}

#[derive(Clone, Copy)]
pub struct State {
    pub spurious: bool,
    pub did_spur: bool,
    pub notified: bool,
    pub last_access: Access,
    pub synchronize: Clock,
}
