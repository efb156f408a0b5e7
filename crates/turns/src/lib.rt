// A table and a list are judged, and the sheet is written.
#![tactic(auto)]

ghost use Rattle.std.specs.Prelude.{◌≡◌, map, replicate, Ok};
ghost use Rattle.clocks.specs.Clock.{max_threads};
ghost use Rattle.clocks.specs.Pass.{pass_from};
ghost use Rattle.rules.specs.Ground.{absent};
ghost use Rattle.rules.specs.Object.{new_entry};
ghost use Rattle.rules.specs.Turn.{start_thread, start};
ghost use Rattle.rules.specs.Judge.{judge_table, judge_of};
ghost use Rattle.turns.specs.Start.{is_made};

use clocks::THREADS;
use objects_record::absent;
use rules::answer::Answer;
use rules::object::{Entry, Kind, OBJECTS};
use rules::table::{Made, Table};
use rules::thread::{State, Thread};
use rules::world::World;
use turns_run::run;
use turns_sheet::{sheet_length, write_sheet};
use turns_table::read_table;

// The first n threads are there, and stand at the start.
#[tactic(auto, using(clocks::specs::Pass::turned, clocks::specs::Pass::ended), unfolding(rules::specs::Turn::start_thread))]
fn start_threads(n: u8) -> [Thread; THREADS]
    ensures { result ≡ pass_from (start_thread n) 0 (replicate max_threads absent) }
{
    let mut threads = [absent(); THREADS];
    for (k, t) in threads.iter_mut().enumerate() {
        if k < usize::from(n) {
            t.state = State::Runnable;
        }
    }
    threads
}

// Whether the table makes an object of a place.
fn is_made(made: Made) -> bool
    ensures { result ≡ is_made made.kind made.spurious }
{
    made.spurious || !matches!(made.kind, Kind::Nothing)
}

fn start_objects(objects: [Made; OBJECTS]) -> [Entry; OBJECTS]
    ensures { result ≡ map new_entry objects }
{
    let mut store = [objects::absent(); OBJECTS];
    for (k, made) in objects.iter().enumerate() {
        if is_made(*made) {
            store[k] = objects::new_entry(*made);
        }
    }
    store
}

// The world before any decision.
pub fn start(table: Table) -> World
    ensures { result ≡ start table }
{
    let objects = table.objects;
    World {
        threads: start_threads(table.thread_count),
        objects: start_objects(objects),
        turn: 0,
        asked: None,
    }
}

// A table that was accepted: the room for the sheet, then the list as it runs.
fn judged(table: Table, list: &[u8], sheet: &mut [u8]) -> Answer
    ensures { record { answer = result; buffer = sheet.new } ≡ judge_table (Ok table) list.now sheet.old }
{
    let needed = sheet_length(table);
    if sheet.len() < needed {
        return Answer::TooShort(needed);
    }
    match run(table, start(table), list) {
        Ok(ran) => {
            write_sheet(table, ran.world, sheet);
            ran.verdict.unwrap_or(Answer::More)
        }
        Err(refusal) => refusal.into(),
    }
}

pub fn judge(table: &[u8], list: &[u8], sheet: &mut [u8]) -> Answer
    ensures { record { answer = result; buffer = sheet.new } ≡ judge_of table.now list.now sheet.old }
{
    match read_table(table) {
        Ok(read) => judged(read, list, sheet),
        Err(refusal) => refusal,
    }
}
