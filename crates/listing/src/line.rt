// One line: the verdict's number, then the decisions as two hexadecimal digits each.
ghost use Rattle.std.specs.Prelude.{◌≡◌, ◌∷◌, ◌+◌, ◌*◌, ◌<◌, length};
ghost use Rattle.std.proofs.lemmas.List.Edits.{sets};
ghost use Rattle.rules.specs.Sheet.{each};
ghost use Rattle.rules.specs.Walk.{hex_digit, decision_text};
ghost use Rattle.listing.specs.Line.{decision_bytes, number_digit};

use turns_shown::put;

#[tactic(auto, unfolding(rules::specs::Walk::hex_digit))]
fn hex_digit(n: u8) -> u8
    requires { n < 16 }
    ensures { result ≡ hex_digit n }
{
    match n {
        0..=9 => b'0' + n,
        _ => b'A' + (n - 10),
    }
}

fn put_decision(out: &mut [u8], at: usize, d: u8)
    requires { at < 100000 }
    ensures { out.new ≡ sets out.old at (decision_bytes d) }
{
    put(out, at, b' ');
    put(out, at + 1, hex_digit(d / 16));
    put(out, at + 2, hex_digit(d % 16));
}

fn put_decisions(out: &mut [u8], at: usize, list: &[u8])
    requires { (at < 90000) × (length list.now < 1000) }
    ensures { out.new ≡ sets out.old at (each decision_bytes list.now) }
{
    for (i, d) in list.iter().enumerate() {
        put_decision(out, at + 3 * i, *d);
    }
}

// A verdict's number has one digit.
fn number_digit(number: Option<u8>) -> u8
    ensures { result ≡ number_digit number }
{
    match number {
        Some(n @ 0..=9) => b'0' + n,
        _ => b'?',
    }
}

// The line stands at `at`; its end is handed back.
pub fn put_line(out: &mut [u8], at: usize, number: Option<u8>, list: &[u8]) -> usize
    requires { (at < 80000) × (length list.now < 1000) }
    ensures written { out.new ≡ sets out.old at (number_digit number ∷ decision_text list.now) }
    ensures end { result ≡ at + 3 * length list.now + 2 }
{
    put(out, at, number_digit(number));
    put_decisions(out, at + 1, list);
    let end = at + 3 * list.len() + 1;
    put(out, end, b'\n');
    end + 1
}
