// loom's rt/cell.rs.
use clocks::Clock;

#[derive(Clone, Copy)]
pub enum Call {
    StartRead,
    EndRead,
    StartWrite,
    EndWrite,
}

#[derive(Clone, Copy)]
pub struct State {
    pub is_reading: u16,
    pub is_writing: bool,
    pub read_access: Clock,
    pub write_access: Clock,
}
