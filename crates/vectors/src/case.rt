// One stored case, a line `table|list|room|answer|bytes`, with `first|` or `next|` before it if it is not the judge's: the call is made on a buffer
// of that room, and what it gives is compared.
ghost use Rattle.std.specs.Prelude.{◌≡◌, ◌↔◌, IsTrue};
ghost use Rattle.vectors.specs.Case.{answer_from, in_order, given_of, Agreed};

use crate::text::{decimal, hex_bytes};
use rules::answer::{Answer, Numbers};
use turns::judge;
use turns_answer::numbers;
use walk::{first, next};

// More than the largest table, list or sheet.
const ROOM: usize = 2048;
// Stands in the buffer beforehand, and is not 0, so that a byte that was written shows.
const FILL: u8 = 0xA5;

// What a case calls.
#[derive(Clone, Copy)]
enum Call {
    Judge,
    First,
    Next,
}

impl Call {
    // The call that a line names, and the fields after its name.
    fn named(line: &[u8]) -> (Call, &[u8]) {
        if let Some(fields) = line.strip_prefix(b"first|") {
            (Call::First, fields)
        } else if let Some(fields) = line.strip_prefix(b"next|") {
            (Call::Next, fields)
        } else {
            (Call::Judge, line)
        }
    }

    fn make(self, table: &[u8], list: &[u8], buffer: &mut [u8]) -> Answer
        ensures { record { answer = result; buffer = buffer.new } ≡ given_of self table.now list.now buffer.old }
    {
        match self {
            Call::Judge => judge(table, list, buffer),
            Call::First => first(table, buffer),
            Call::Next => next(table, list, buffer),
        }
    }

    // The call gives this answer, and leaves in the buffer what `told` has.
    fn gives(self, table: &[u8], list: &[u8], buffer: &mut [u8], answer: &[u8], told: &[u8]) -> bool
        ensures { IsTrue result ↔ Agreed self table.now list.now buffer.old answer.now told.now }
    {
        let given = self.make(table, list, buffer);
        is_answer(answer, in_order(numbers(given))) && *buffer == *told
    }
}

// The six numbers in the order in which a line has them.
fn in_order(n: Numbers) -> [usize; 6]
    ensures { result ≡ in_order n }
{
    [
        usize::from(n.number),
        n.place,
        usize::from(n.thread),
        usize::from(n.position),
        usize::from(n.object),
        usize::from(n.other),
    ]
}

// The numbers stand with one space between two, and nothing else.
fn is_answer(text: &[u8], six: [usize; 6]) -> bool
    ensures { result ≡ answer_from text.now 0 six }
{
    let words = text.split(|b| *b == b' ').map(decimal);
    words.eq(six.into_iter().map(Some))
}

// The fields of a line, as they stand.
#[derive(Clone, Copy)]
struct Case<'a> {
    call: Call,
    table: &'a [u8],
    list: &'a [u8],
    room: &'a [u8],
    answer: &'a [u8],
    told: &'a [u8],
}

impl<'a> Case<'a> {
    // A line that lacks a field is no case.
    fn read(line: &'a [u8]) -> Option<Case<'a>> {
        let (call, fields) = Call::named(line);
        let mut fields = fields.splitn(5, |b| *b == b'|');
        Some(Case {
            call,
            table: fields.next()?,
            list: fields.next()?,
            room: fields.next()?,
            answer: fields.next()?,
            told: fields.next()?,
        })
    }

    // Whether the call gives what is told, if the fields can be read.
    // The bytes are put over the fill, so one comparison shows what was written and what was not.
    fn replay(self) -> Option<bool> {
        let mut table = [FILL; ROOM];
        let mut list = [FILL; ROOM];
        let mut told = [FILL; ROOM];
        let mut buffer = [FILL; ROOM];
        let table_length = hex_bytes(self.table, &mut table)?;
        let list_length = hex_bytes(self.list, &mut list)?;
        let room = decimal(self.room)?;
        let told = told.get_mut(..room)?;
        hex_bytes(self.told, told)?;
        Some(
            self.call.gives(
                &table[..table_length],
                &list[..list_length],
                &mut buffer[..room],
                self.answer,
                told,
            ),
        )
    }
}

pub fn agrees(line: &[u8]) -> bool {
    Case::read(line).and_then(Case::replay) == Some(true)
}
