// A queue in an array, oldest first.
ghost use Rattle.std.specs.Prelude.{◌≡◌, [], ◌∷◌, ◌++◌, drop};

// The queue without its oldest: each other moves up one place, and the last place is filled.
pub fn pop_front<T: Copy, const N: usize>(mut queue: [T; N], filler: T) -> [T; N]
    ensures { result ≡ drop 1 (queue ++ filler ∷ []) }
{
    if 0 < N {
        queue[0] = filler;
        queue.rotate_left(1);
    }
    queue
}
