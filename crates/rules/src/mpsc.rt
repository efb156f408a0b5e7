// loom's rt/mpsc.rs. The messages' clocks stand oldest first; a place that no message has holds the zero clock.
use crate::access::Access;
use clocks::Clock;

#[derive(Clone, Copy)]
pub enum Call {
    Send,
    Recv,
}

#[derive(Clone, Copy)]
pub enum Action {
    MsgSend,
    MsgRecv,
}

pub const MESSAGES: usize = 16;

#[derive(Clone, Copy)]
pub struct State {
    pub msg_cnt: u8,
    pub last_send_access: Access,
    pub last_recv_access: Access,
    pub sender_synchronize: Clock,
    pub receiver_synchronize: [Clock; MESSAGES],
}
