// An answer in one word, for the calls for C.
#![tactic(auto)]

ghost use Rattle.std.specs.Prelude.{◌≡◌};
ghost use Rattle.word.specs.Word.{word_of};

use rules::answer::Numbers;

// An answer in one word: number, place, thread, position, object, other from the lowest byte on.
pub fn word(n: Numbers) -> u64
    ensures { result ≡ word_of n }
{
    let [place, place_high, ..] = n.place.to_le_bytes();
    let [other, other_high] = n.other.to_le_bytes();
    u64::from_le_bytes([
        n.number, place, place_high, n.thread, n.position, n.object, other, other_high,
    ])
}
