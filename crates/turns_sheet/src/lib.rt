// The sheet: threads, then objects, each by its record. What lies past the end of the lent bytes is not written.
#![tactic(auto)]

ghost use Rattle.std.specs.Prelude.{◌≡◌, ◌*◌, take};
ghost use Rattle.std.proofs.lemmas.List.Edits.{sets};
ghost use Rattle.rules.specs.Ground.{absent};
ghost use Rattle.rules.specs.Limits.{thread_record};
ghost use Rattle.rules.specs.Sheet.{filled, each, thread_bytes, objects_bytes, sheet_of, record_length, objects_length, sheet_length};

use clocks::{THREADS, ThreadId};
use objects_threads::get;
use rules::condvar::WAITERS;
use rules::mpsc::MESSAGES;
use rules::object::{Entry, Kind, OBJECTS};
use rules::table::{Made, Table};
use rules::thread::Thread;
use rules::world::World;
use turns_shown::{put_object, put_thread};

// The length of a thread's record, and of an object's by its kind.
const THREAD: usize = 5 + 2 * THREADS;

const MUTEX: usize = 2 + THREADS;

const RWLOCK: usize = 3 + THREADS;

const CONDVAR: usize = 2 + WAITERS;

const NOTIFY: usize = 3 + THREADS;

const CHANNEL: usize = 2 + THREADS + MESSAGES * THREADS;

const ARC: usize = 2 + THREADS;

const CELL: usize = 3 + 2 * THREADS;

#[tactic(auto, unfolding(rules::specs::Sheet::record_length))]
fn record_length(kind: Kind) -> usize
    ensures { result ≡ record_length kind }
{
    match kind {
        Kind::Mutex => MUTEX,
        Kind::RwLock => RWLOCK,
        Kind::Condvar => CONDVAR,
        Kind::Notify => NOTIFY,
        Kind::Channel => CHANNEL,
        Kind::Arc => ARC,
        Kind::Cell => CELL,
        Kind::Nothing => 0,
    }
}

fn objects_length(objects: [Made; OBJECTS], count: u8) -> usize
    ensures { result ≡ objects_length (take count objects) }
{
    objects
        .iter()
        .take(usize::from(count))
        .map(|made| record_length(made.kind))
        .sum()
}

#[tactic(auto, using(rules::proofs::SheetLaws::first_small), unfolding(rules::specs::Sheet::sheet_length))]
pub fn sheet_length(table: Table) -> usize
    ensures { result ≡ sheet_length table }
{
    THREAD * usize::from(table.thread_count) + objects_length(table.objects, table.object_count)
}

fn put_threads(sheet: &mut [u8], n: u8, threads: [Thread; THREADS])
    ensures { sheet.new ≡ sets sheet.old 0 (each thread_bytes (filled absent n threads)) }
{
    for i in 0..n {
        let t = get(threads, ThreadId(i));
        put_thread(sheet, THREAD * usize::from(i), &t);
    }
}

// The objects, each where the one before it ends, and the first where the threads end.
fn put_objects(
    sheet: &mut [u8],
    threads: u8,
    count: u8,
    objects: [Made; OBJECTS],
    entries: &[Entry; OBJECTS],
)
    ensures { sheet.new ≡ sets sheet.old (thread_record * threads) (objects_bytes (take count objects) entries.now) }
{
    let mut at = THREAD * usize::from(threads);
    for (made, e) in objects.iter().zip(entries).take(usize::from(count)) {
        put_object(sheet, at, made.kind, e);
        at += record_length(made.kind);
    }
}

#[tactic(auto, using(rules::proofs::SheetLaws::sheet_written))]
pub fn write_sheet(table: Table, world: World, sheet: &mut [u8])
    ensures { sheet.new ≡ sets sheet.old 0 (sheet_of table world) }
{
    let threads = table.thread_count;
    let count = table.object_count;
    put_threads(sheet, threads, world.threads);
    put_objects(sheet, threads, count, table.objects, &world.objects);
}
