// How a step ended.
ghost use Rattle.std.specs.Prelude.{◌≡◌};
ghost use Rattle.rules.specs.Ground.{is_fine};

use rules::object::Failure;

pub fn is_fine(e: Result<(), Failure>) -> bool
    ensures { result ≡ is_fine e }
{
    e.is_ok()
}
