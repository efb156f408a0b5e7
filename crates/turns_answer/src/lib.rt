// The six numbers of each answer.
#![tactic(auto)]

ghost use Rattle.std.specs.Prelude.{◌≡◌};
ghost use Rattle.rules.specs.Answer.{only, at_place, at_spot, numbers_of};

use rules::answer::{Answer, Numbers, Spot};
use rules::object::ObjectId;

// What an answer has no use for is 255; the place is 0.
const UNUSED: u8 = 255;

fn only(number: u8) -> Numbers
    ensures { result ≡ only number }
{
    Numbers {
        number,
        place: 0,
        thread: UNUSED,
        position: UNUSED,
        object: UNUSED,
        other: u16::from(UNUSED),
    }
}

fn at_place(number: u8, place: usize) -> Numbers
    ensures { result ≡ at_place number place }
{
    Numbers {
        place,
        ..only(number)
    }
}

// An object alone: no thread is at fault.
fn at_object(number: u8, o: ObjectId) -> Numbers
    ensures { result ≡ record { number = number; place = 0; thread = 255; position = 255; object = o.0; other = 255 } }
{
    Numbers {
        object: o.0,
        ..only(number)
    }
}

fn at_spot(number: u8, s: Spot) -> Numbers
    ensures { result ≡ at_spot number s 255 }
{
    Numbers {
        thread: s.thread.0,
        position: s.position,
        ..at_object(number, s.object)
    }
}

#[tactic(auto, unfolding(rules::specs::Answer::numbers_of))]
pub fn numbers(a: Answer) -> Numbers
    ensures { result ≡ numbers_of a }
{
    match a {
        Answer::Clean => only(0),
        Answer::Race(s, other) => Numbers {
            other: u16::from(other.0),
            ..at_spot(1, s)
        },
        Answer::Deadlock(s) => at_spot(2, s),
        Answer::Leak(o) => at_object(3, o),
        Answer::Misuse(s) => at_spot(4, s),
        Answer::NoRoom(s) => at_spot(5, s),
        Answer::More => only(6),
        Answer::NoLaterList => only(7),
        Answer::ListWritten(n) => at_place(8, n),
        Answer::BadRecord(p) => at_place(20, p),
        Answer::TooMany(p) => at_place(21, p),
        Answer::BadObject(p) => at_place(22, p),
        Answer::NotAllowed(p) => at_place(23, p),
        Answer::Surplus(p) => at_place(24, p),
        Answer::TooShort(n) => at_place(25, n),
        Answer::NotComplete => only(26),
    }
}
