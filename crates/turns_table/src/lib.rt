// Reading a table, a record at a time.
#![tactic(auto)]

ghost use Rattle.std.specs.Prelude.{◌≡◌, ◌≤◌, Ok, Some};
ghost use Rattle.clocks.specs.Clock.{max_threads};
ghost use Rattle.rules.specs.Table.{empty_table, no_op, object_record, thread_record, operation_record, one_record, at_end, read_table};
ghost use Rattle.turns_table.specs.Taken.{taken};

use clocks::THREADS;
use rules::answer::Answer;
use rules::mutex;
use rules::object::{Kind, OBJECTS, ObjectId};
use rules::table::{Call, Made, OPERATIONS, Op, PLACES, Record, Table};
use turns_fine::objects_fine;
use turns_record::{body_length, read_record};

// What is read where no operation is.
pub fn no_op() -> Op
    ensures { result ≡ no_op }
{
    Op {
        call: Call::Mutex(mutex::Call::AcquireLock),
        object: ObjectId(0),
    }
}

#[tactic(auto, unfolding(rules::specs::Table::empty_table))]
fn empty_table() -> Table
    ensures { result ≡ empty_table }
{
    let nothing = Made {
        kind: Kind::Nothing,
        spurious: false,
    };
    Table {
        objects: [nothing; OBJECTS],
        object_count: 0,
        ops: [no_op(); PLACES],
        counts: [0; THREADS],
        thread_count: 0,
    }
}

// Objects stand before the threads.
#[tactic(auto, unfolding(rules::specs::Table::object_record))]
fn add_object(table: &mut Table, at: usize, m: Made) -> Result<(), Answer>
    requires { table.old.thread_count ≤ max_threads }
    ensures read { taken table.new result ≡ object_record at table.old m Ok }
    ensures few { table.new.thread_count ≤ max_threads }
{
    if table.thread_count != 0 {
        return Err(Answer::BadRecord(at));
    }
    if OBJECTS as u8 <= table.object_count {
        return Err(Answer::TooMany(at));
    }
    table.objects[table.object_count as usize] = m;
    table.object_count += 1;
    Ok(())
}

#[tactic(auto, unfolding(rules::specs::Table::thread_record))]
fn add_thread(table: &mut Table, at: usize) -> Result<(), Answer>
    requires { table.old.thread_count ≤ max_threads }
    ensures read { taken table.new result ≡ thread_record at table.old Ok }
    ensures few { table.new.thread_count ≤ max_threads }
{
    if THREADS as u8 <= table.thread_count {
        return Err(Answer::TooMany(at));
    }
    table.thread_count += 1;
    Ok(())
}

// An operation is the last thread's.
#[tactic(auto, unfolding(rules::specs::Table::operation_record))]
fn add_operation(table: &mut Table, at: usize, op: Op) -> Result<(), Answer>
    requires { table.old.thread_count ≤ max_threads }
    ensures read { taken table.new result ≡ operation_record at table.old op Ok }
    ensures few { table.new.thread_count ≤ max_threads }
{
    if table.thread_count == 0 {
        return Err(Answer::BadRecord(at));
    }
    let thread = (table.thread_count - 1) as usize;
    let count = table.counts[thread];
    if OPERATIONS as u8 <= count {
        return Err(Answer::TooMany(at));
    }
    if !objects_fine(table.objects, op) {
        return Err(Answer::BadObject(at));
    }
    table.ops[OPERATIONS * thread + count as usize] = op;
    table.counts[thread] = count + 1;
    Ok(())
}

#[tactic(auto, unfolding(rules::specs::Table::one_record))]
fn add(table: &mut Table, at: usize, one: Record) -> Result<(), Answer>
    requires { table.old.thread_count ≤ max_threads }
    ensures read { taken table.new result ≡ one_record at table.old (Some one) Ok }
    ensures few { table.new.thread_count ≤ max_threads }
{
    match one {
        Record::Object(m) => add_object(table, at, m),
        Record::Thread => add_thread(table, at),
        Record::Operation(op) => add_operation(table, at, op),
    }
}

// A table has at least one thread.
#[tactic(auto, unfolding(rules::specs::Table::at_end))]
fn at_end(at: usize, table: Table) -> Result<Table, Answer>
    ensures { result ≡ at_end at table }
{
    if table.thread_count == 0 {
        return Err(Answer::TooMany(at));
    }
    Ok(table)
}

// The whole table, or the first record that is bad with its place. Each record is stored where it belongs.
pub fn read_table(bytes: &[u8]) -> Result<Table, Answer>
    ensures { result ≡ read_table bytes.now }
{
    let mut table = empty_table();
    let mut at = 0;
    while at < bytes.len() {
        let Some(one) = read_record(bytes, at) else {
            return Err(Answer::BadRecord(at));
        };
        add(&mut table, at, one)?;
        at += 1 + body_length(bytes[at]);
    }
    at_end(at, table)
}
