// Digits and numbers of a line.
ghost use Rattle.std.specs.Prelude.{◌≡◌, IfSome};
ghost use Rattle.vectors.specs.Text.{hex_digit_of, number_of, Hexed};

// A small letter is no digit.
#[tactic(auto, unfolding(crate::specs::Text::hex_value))]
fn hex_digit(b: u8) -> Option<u8>
    ensures { result ≡ hex_digit_of b }
{
    match b {
        b'0'..=b'9' => Some(b - b'0'),
        b'A'..=b'F' => Some(b - b'A' + 10),
        _ => None,
    }
}

// One decimal digit or more; a number that could not be a length or a place is none.
#[tactic(auto, unfolding(crate::specs::Text::number_from, crate::specs::Text::number_of))]
pub fn decimal(text: &[u8]) -> Option<usize>
    ensures { result ≡ number_of text.now }
{
    if text.is_empty() {
        return None;
    }
    let mut n = 0;
    for b in text {
        let digit = hex_digit(*b)?;
        if digit > 9 || n > 99_999_999 {
            return None;
        }
        n = n * 10 + usize::from(digit);
    }
    Some(n)
}

// Pairs of digits become bytes at the start of `out`; what lies past them stays. Gives how many.
pub fn hex_bytes(text: &[u8], out: &mut [u8]) -> Option<usize>
    ensures { IfSome result (Hexed text.now out.old out.new) }
{
    let (pairs, []) = text.as_chunks::<2>() else {
        return None;
    };
    if out.len() < pairs.len() {
        return None;
    }
    for (k, [high, low]) in pairs.iter().enumerate() {
        out[k] = hex_digit(*high)? * 16 + hex_digit(*low)?;
    }
    Some(pairs.len())
}
