// A clock has one count for each thread, all 0 at the start (loom's rt/vv.rs).
ghost use Rattle.std.specs.Prelude.{◌≡◌};
ghost use Rattle.clocks.specs.Clock.{zero_clock, join_of, risen, inc_of, ahead_of};

use crate::thread::ThreadId;
use std::array;

// As many counts as a table may have threads.
pub const THREADS: usize = 6;

#[derive(Clone, Copy)]
pub struct Clock {
    pub counts: [u8; THREADS],
}

// Who is ahead of a clock: a bit for each, and the lowest.
#[derive(Clone, Copy)]
pub struct Ahead {
    pub mask: u16,
    pub lowest: ThreadId,
}

// One more, unless the count is at its type's end.
pub fn one_more(n: u8) -> u8
    ensures { result ≡ risen 255 n }
{
    n.saturating_add(1)
}

impl Clock {
    pub fn new() -> Clock
        ensures { result ≡ zero_clock }
    {
        Clock {
            counts: [0u8; THREADS],
        }
    }

    // The larger count at each place.
    pub fn join(self, other: Clock) -> Clock
        ensures { result ≡ join_of self other }
    {
        Clock {
            counts: array::from_fn(|i| self.counts[i].max(other.counts[i])),
        }
    }

    // The thread's own count rises by one; a thread past the last place changes nothing.
    pub fn inc(mut self, id: ThreadId) -> Clock
        ensures { result ≡ inc_of self id }
    {
        let i = usize::from(id.0);
        if i < THREADS {
            self.counts[i] = one_more(self.counts[i]);
        }
        self
    }

    // Who is ahead of this clock in `other`. The walk goes down, so the first place has the lowest bit.
    pub fn ahead(self, other: Clock) -> Option<Ahead>
        ensures { result ≡ ahead_of self other }
    {
        let mut mask = 0u16;
        for i in (0..THREADS).rev() {
            mask = 2 * mask + u16::from(self.counts[i] < other.counts[i]);
        }
        if mask == 0 {
            return None;
        }
        Some(Ahead {
            mask,
            lowest: ThreadId(mask.trailing_zeros() as u8),
        })
    }
}
