// Counts: at its type's end a count stays, and at 0 it does not fall.
ghost use Rattle.std.specs.Prelude.{◌≡◌, ◌-◌};
ghost use Rattle.clocks.specs.Clock.{risen};

pub fn one_more(n: u16) -> u16
    ensures { result ≡ risen 65535 n }
{
    n.saturating_add(1)
}

pub fn one_less(n: u16) -> u16
    ensures { result ≡ n - 1 }
{
    n.saturating_sub(1)
}

// A thread's position after one operation more.
pub fn next_position(p: u8) -> u8
    ensures { result ≡ risen 255 p }
{
    clocks::one_more(p)
}
