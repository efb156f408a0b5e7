// What the program `runs` prints of a table: a line for each of its runs.
#![tactic(auto)]

mod line;

ghost use Rattle.std.specs.Prelude.{◌≡◌, ◌≤◌, ◌<◌, ◌+◌, ◌-◌, ◌*◌, ◌^◌, ◌++◌, IfOk, IfSome, OnOk, min, length, take};
ghost use Rattle.std.specs.Io.KnownBytes.{Appends, Consumes, IsAtEnd};
ghost use Rattle.rules.specs.Answer.{numbers_of};
ghost use Rattle.rules.specs.Walk.{runs_of};
ghost use Rattle.walker.specs.Walking.{begun};
ghost use Rattle.listing.specs.Told.{verdict_number, end_line, lines, Moves, refusal};

use line::put_line;
use rules::answer::{Answer, Numbers};
use rules::table::{LIST, Table};
use std::io;
use std::io::{Read, Write};
use turns_answer::numbers;
use turns_table::read_table;
use walker::{advance, begin};

// More than any table that is accepted, and more than the place of any refusal.
const TABLE: usize = 2048;
// Lines wait here, so that many are written at once.
const OUT: usize = 65536;
// More than the longest line.
const LINE: usize = 2048;

// Reads until the slice is full or the input ends, and hands back how many bytes came.
fn fill<R: Read>(from: &mut R, table: &mut [u8]) -> io::Result<usize>
    ensures bound { IfOk result (λ n. n ≤ length table.new) }
    ensures bytes { IfOk result (λ n. Consumes (R.remaining from.old) (R.remaining from.new) (take n table.new)) }
    ensures end { IfOk result (λ n. n < length table.new → IsAtEnd (R.remaining from.new)) }
{
    let mut done = 0;
    for _ in 0..u64::MAX {
        if table.len() <= done {
            break;
        }
        let n = from.read(&mut table[done..])?;
        if n == 0 {
            break;
        }
        done += n;
    }
    Ok(done)
}

// The front part of the input; the rest is read and changes nothing, since a longer table is refused within the front part.
fn read_input<R: Read>(from: &mut R, table: &mut [u8]) -> io::Result<usize>
    ensures bound { IfOk result (λ n. n ≤ 2048) }
    ensures front { length table.old ≡ 2048 → IfOk result (λ n. IfSome (R.remaining from.old) (λ bs. take n table.new ≡ take 2048 bs)) }
{
    let n = fill(from, table)?;
    if n == table.len() {
        io::copy(from, &mut io::sink())?;
    }
    Ok(n.min(TABLE))
}

fn say_refused<W: Write>(to: &mut W, a: Answer) -> io::Result<()>
    ensures { OnOk result (Appends (W.contents to.old) (W.contents to.new) (refusal (numbers_of a).number (numbers_of a).place)) }
{
    let Numbers { number, place, .. } = numbers(a);
    writeln!(to, "refused {number} at {place}")
}

// The number of a run's verdict, or of its refusal, if it has ended.
fn verdict_number(verdict: Option<Answer>) -> Option<u8>
    ensures { result ≡ verdict_number verdict }
{
    Some(numbers(verdict?).number)
}

// Writes what waits.
fn flush<W: Write>(to: &mut W, out: &[u8], used: usize) -> io::Result<()>
    ensures { OnOk result (Appends (W.contents to.old) (W.contents to.new) (take used out.now)) }
{
    to.write_all(&out[..used.min(out.len())])
}

// Where the next line may begin: what waits is written where there is no room for another line.
fn make_room<W: Write>(to: &mut W, out: &[u8], used: usize) -> io::Result<usize>
    ensures room { IfOk result (λ n. n ≤ 63488) }
    ensures moves { IfOk result (λ n. Moves (W.contents to.old) (take used out.now) (W.contents to.new) (take n out.now)) }
{
    if used <= OUT - LINE {
        return Ok(used);
    }
    flush(to, out, used)?;
    Ok(0)
}

// Adds the line of one run, and hands back how much waits then.
fn add_line(verdict: Option<Answer>, list: &[u8], out: &mut [u8], used: usize) -> usize
    requires { length list.now < 1000 }
    ensures line { used + 3 * length list.now + 2 ≤ min 65536 (length out.old)
        → take result out.new ≡ take used out.old ++ end_line verdict list.now }
    ensures end { used ≤ 65536 → result ≡ used + 3 * length list.now + 2 }
{
    put_line(out, used.min(OUT), verdict_number(verdict), list)
}

// The runs of a table. Nothing says that they end, so they are counted, up to a number that no walk reaches.
fn go_through<W: Write>(table: Table, to: &mut W) -> io::Result<()>
    ensures { OnOk result (Appends (W.contents to.old) (W.contents to.new) (lines (2 ^ 64 - 1) (Some (begun table)))) }
{
    let mut out = [0u8; OUT];
    let mut next = Some(begin(table));
    let mut used = 0;
    for _ in 0..u64::MAX {
        let Some(w) = next else {
            break;
        };
        let at = make_room(to, &out, used)?;
        let list = &w.path.list[..w.path.at.min(LIST)];
        used = add_line(w.path.verdict, list, &mut out, at);
        next = advance(w);
    }
    flush(to, &out, used)
}

// Reads a table, and writes a line for each run of it, or its refusal.
pub fn list_runs<R: Read, W: Write>(from: &mut R, to: &mut W) -> io::Result<()>
    ensures { OnOk result (IfSome (R.remaining from.old) (λ bs.
        Appends (W.contents to.old) (W.contents to.new) (runs_of (2 ^ 64 - 1) bs))) }
{
    let mut table = [0u8; TABLE];
    let n = read_input(from, &mut table)?;
    match read_table(&table[..n]) {
        Ok(table) => go_through(table, to),
        Err(refusal) => say_refused(to, refusal),
    }
}
