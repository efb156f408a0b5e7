// loom's rt/arc.rs.
use crate::access::Access;
use clocks::Clock;

#[derive(Clone, Copy)]
pub enum Call {
    RefInc,
    RefDec,
    GetMut,
    StrongCount,
}

#[derive(Clone, Copy)]
pub enum Action {
    RefInc,
    RefDec,
    Inspect,
}

#[derive(Clone, Copy)]
pub enum RefModify {
    RefInc,
    RefDec,
}

#[derive(Clone, Copy)]
pub struct State {
    pub ref_cnt: u16,
    pub synchronize: Clock,
    pub last_ref_inc: Access,
    pub last_ref_dec: Access,
    pub last_ref_inspect: Access,
    pub last_ref_modification: Option<RefModify>,
}
