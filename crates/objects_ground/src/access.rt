// loom's rt/access.rs.
ghost use Rattle.std.specs.Prelude.{◌≡◌};
ghost use Rattle.rules.specs.Ground.{no_access};

use clocks::Clock;
use rules::access::Access;

// The access that never was.
pub fn new() -> Access
    ensures { result ≡ no_access }
{
    Access {
        path_id: 0,
        version: Clock::new(),
    }
}
