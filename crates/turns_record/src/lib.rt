// One record of a table, read from its bytes.
#![tactic(auto)]

ghost use Rattle.std.specs.Prelude.{◌≡◌, ◌+◌, get_or, drop};
ghost use Rattle.rules.specs.declared.object.Kind.TheVariants as kind;
ghost use Rattle.rules.specs.declared.table.Call.TheVariants.{Mutex};
ghost use Rattle.rules.specs.declared.mutex.Call.TheVariants as mutex;
ghost use Rattle.rules.specs.Table.{body_length, kinds, calls, object_of, operation_of, whole_record, record_of};

use rules::object::{Kind, ObjectId};
use rules::table::{Call, Made, Op, Record};
use rules::{arc, cell, condvar, mpsc, mutex, notify, rwlock};

// How many bytes of body the kind fixes.
#[tactic(auto, unfolding(rules::specs::Table::body_length, rules::specs::Table::is_operation))]
pub fn body_length(k: u8) -> usize
    ensures { result ≡ body_length k }
{
    match k {
        0x10 => 1,
        0x13 => 2,
        0x39 => 2,
        0x30..=0x47 => 1,
        _ => 0,
    }
}

// The objects in the order of their kinds, from 0x10.
#[tactic(auto, unfolding(rules::specs::Table::kinds))]
fn kind_at(n: u8) -> Kind
    ensures { result ≡ get_or kinds n kind.Nothing }
{
    match n {
        0 => Kind::Mutex,
        1 => Kind::RwLock,
        2 => Kind::Condvar,
        3 => Kind::Notify,
        4 => Kind::Channel,
        5 => Kind::Arc,
        6 => Kind::Cell,
        _ => Kind::Nothing,
    }
}

// The operations in the order of their kinds, from 0x30; `second` is the mutex of a condvar wait.
#[tactic(auto, unfolding(rules::specs::Table::calls))]
fn call_at(n: u8, second: u8) -> Call
    ensures { result ≡ get_or (calls second) n (Mutex mutex.AcquireLock) }
{
    match n {
        0 => Call::Mutex(mutex::Call::AcquireLock),
        1 => Call::Mutex(mutex::Call::TryAcquireLock),
        2 => Call::Mutex(mutex::Call::ReleaseLock),
        3 => Call::RwLock(rwlock::Call::AcquireReadLock),
        4 => Call::RwLock(rwlock::Call::AcquireWriteLock),
        5 => Call::RwLock(rwlock::Call::TryAcquireReadLock),
        6 => Call::RwLock(rwlock::Call::TryAcquireWriteLock),
        7 => Call::RwLock(rwlock::Call::ReleaseReadLock),
        8 => Call::RwLock(rwlock::Call::ReleaseWriteLock),
        9 => Call::Condvar(condvar::Call::Wait(ObjectId(second))),
        10 => Call::Condvar(condvar::Call::NotifyOne),
        11 => Call::Condvar(condvar::Call::NotifyAll),
        12 => Call::Notify(notify::Call::Notify),
        13 => Call::Notify(notify::Call::Wait),
        14 => Call::Channel(mpsc::Call::Send),
        15 => Call::Channel(mpsc::Call::Recv),
        16 => Call::Arc(arc::Call::RefInc),
        17 => Call::Arc(arc::Call::RefDec),
        18 => Call::Arc(arc::Call::GetMut),
        19 => Call::Arc(arc::Call::StrongCount),
        20 => Call::Cell(cell::Call::StartRead),
        21 => Call::Cell(cell::Call::EndRead),
        22 => Call::Cell(cell::Call::StartWrite),
        23 => Call::Cell(cell::Call::EndWrite),
        _ => Call::Mutex(mutex::Call::AcquireLock),
    }
}

#[tactic(auto, unfolding(rules::specs::Table::object_of))]
fn object_of(n: u8, first: u8, second: u8) -> Option<Record>
    ensures { result ≡ object_of n first second }
{
    if first <= 1 && second <= 1 {
        let made = Made {
            kind: kind_at(n),
            spurious: second == 1,
        };
        Some(Record::Object(made))
    } else {
        None
    }
}

#[tactic(auto, unfolding(rules::specs::Table::operation_of))]
fn operation_of(n: u8, first: u8, second: u8) -> Option<Record>
    ensures { result ≡ operation_of n first second }
{
    let op = Op {
        call: call_at(n, second),
        object: ObjectId(first),
    };
    Some(Record::Operation(op))
}

#[tactic(auto, unfolding(rules::specs::Table::whole_record, rules::specs::Table::is_object, rules::specs::Table::is_operation))]
fn whole_record(k: u8, first: u8, second: u8) -> Option<Record>
    ensures { result ≡ whole_record k first second }
{
    match k {
        0x10..=0x16 => object_of(k - 0x10, first, second),
        0x20 => Some(Record::Thread),
        0x30..=0x47 => operation_of(k - 0x30, first, second),
        _ => None,
    }
}

// The record that begins at `at`; past the end there is none.
#[tactic(auto, using(std::proofs::lemmas::List::drop_all, std::proofs::lemmas::List::get_or_past), unfolding(rules::specs::Table::record_of, rules::specs::Table::whole_record, rules::specs::Table::body_length, rules::specs::Table::is_object, rules::specs::Table::is_operation))]
pub fn read_record(bytes: &[u8], at: usize) -> Option<Record>
    ensures { result ≡ record_of (get_or bytes.now at 0) (drop (at + 1) bytes.now) }
{
    let Some(&k) = bytes.get(at) else {
        return None;
    };
    let rest = &bytes[at + 1..];
    let Some(body) = rest.get(..body_length(k)) else {
        return None;
    };
    let first = body.first().copied().unwrap_or(0);
    let second = body.get(1).copied().unwrap_or(0);
    whole_record(k, first, second)
}
