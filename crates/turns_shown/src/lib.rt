// What the sheet shows of a thread and of an object: its record. What lies past the end of the lent bytes is not written.
#![tactic(auto)]

ghost use Rattle.std.specs.Prelude.{◌≡◌, ℕ, List, map, set};
ghost use Rattle.std.proofs.lemmas.List.Edits.{sets};
ghost use Rattle.clocks.specs.Clock.{zero_clock};
ghost use Rattle.rules.specs.Limits.{max_messages, max_waiters};
ghost use Rattle.rules.specs.Sheet.{filled, each, number, byte, clock_bytes, phase_byte, thread_bytes, holder_byte, mutex_bytes, form_byte, who_byte, rwlock_bytes, condvar_bytes, notify_bytes, channel_bytes, arc_bytes, cell_bytes, object_bytes};

use clocks::{Clock, THREADS, ThreadId};
use rules::condvar::WAITERS;
use rules::mpsc::MESSAGES;
use rules::object::{Entry, Kind};
use rules::rwlock::Locked;
use rules::thread::{Phase, Thread};
use rules::{arc, cell, condvar, mpsc, mutex, notify, rwlock};

// One byte; past the end nothing is written.
pub fn put(sheet: &mut [u8], at: usize, b: u8)
    ensures { sheet.new ≡ set sheet.old at b }
{
    if at < sheet.len() {
        sheet[at] = b;
    }
}

// What the sheet shows as bytes.
trait Shown {
    ghost bytes: { Self → List ℕ };

    // The bytes, from the first of the lent ones on.
    fn show(&self, out: &mut [u8])
        ensures { out.new ≡ sets out.old 0 (bytes self.now) };
}

// The bytes from a place on.
#[tactic(auto, using(crate::proofs::Sets::sets_out, crate::proofs::Sets::sets_rest))]
fn show_at<S: Shown>(out: &mut [u8], at: usize, shown: &S)
    ensures { out.new ≡ sets out.old at (S.bytes shown.now) }
{
    if at < out.len() {
        shown.show(&mut out[at..]);
    }
}

impl<const N: usize> Shown for [u8; N] {
    ghost bytes = { λ bs. bs };

    fn show(&self, out: &mut [u8]) {
        for (i, b) in self.iter().enumerate() {
            put(out, i, *b);
        }
    }
}

impl Shown for Clock {
    ghost bytes = { clock_bytes };

    fn show(&self, out: &mut [u8]) {
        self.counts.show(out);
    }
}

// A count as a byte.
fn low_byte(n: u16) -> u8
    ensures { result ≡ byte n }
{
    (n % 256) as u8
}

#[tactic(auto, unfolding(rules::specs::Sheet::phase_byte))]
fn phase_byte(p: Phase) -> u8
    ensures { result ≡ phase_byte p }
{
    match p {
        Phase::Nothing => 0,
        Phase::Announced(_) => 1,
        Phase::Parked => 2,
        Phase::Retaking(_) => 3,
    }
}

#[tactic(auto, using(crate::proofs::Tags::state_tag), unfolding(rules::specs::Sheet::thread_bytes))]
impl Shown for Thread {
    ghost bytes = { thread_bytes };

    fn show(&self, out: &mut [u8]) {
        let state = self.state as u8;
        let phase = phase_byte(self.phase);
        let answer = low_byte(self.last_answer);
        show_at(out, 0, &[0x80, state, self.position, phase, answer]);
        show_at(out, 5, &self.clock);
        show_at(out, 5 + THREADS, &self.dependence);
    }
}

// The holder, or FF.
#[tactic(auto, unfolding(rules::specs::Sheet::holder_byte))]
fn holder_byte(lock: Option<ThreadId>) -> u8
    ensures { result ≡ holder_byte lock }
{
    match lock {
        None => 255,
        Some(t) => t.0,
    }
}

#[tactic(auto, unfolding(rules::specs::Sheet::mutex_bytes))]
impl Shown for mutex::State {
    ghost bytes = { mutex_bytes };

    fn show(&self, out: &mut [u8]) {
        show_at(out, 0, &[0x90, holder_byte(self.lock)]);
        show_at(out, 2, &self.synchronize);
    }
}

#[tactic(auto, unfolding(rules::specs::Sheet::form_byte))]
fn form_byte(lock: Option<Locked>) -> u8
    ensures { result ≡ form_byte lock }
{
    match lock {
        None => 0,
        Some(Locked::Read(_)) => 1,
        Some(Locked::Write(_)) => 2,
    }
}

// The readers' mask, the writer, or 0.
#[tactic(auto, unfolding(rules::specs::Sheet::who_byte))]
fn who_byte(lock: Option<Locked>) -> u8
    ensures { result ≡ who_byte lock }
{
    match lock {
        None => 0,
        Some(Locked::Read(mask)) => low_byte(mask),
        Some(Locked::Write(t)) => t.0,
    }
}

#[tactic(auto, unfolding(rules::specs::Sheet::rwlock_bytes))]
impl Shown for rwlock::State {
    ghost bytes = { rwlock_bytes };

    fn show(&self, out: &mut [u8]) {
        show_at(out, 0, &[0x91, form_byte(self.lock), who_byte(self.lock)]);
        show_at(out, 3, &self.synchronize);
    }
}

// A place that no waiter has holds FF already.
impl Shown for [ThreadId; WAITERS] {
    ghost bytes = { λ ts. filled 255 max_waiters (map number ts) };

    fn show(&self, out: &mut [u8]) {
        for (i, t) in self.iter().enumerate() {
            put(out, i, t.0);
        }
    }
}

#[tactic(auto, unfolding(rules::specs::Sheet::condvar_bytes))]
impl Shown for condvar::State {
    ghost bytes = { condvar_bytes };

    fn show(&self, out: &mut [u8]) {
        show_at(out, 0, &[0x92, self.count]);
        show_at(out, 2, &self.waiters);
    }
}

#[tactic(auto, unfolding(rules::specs::Sheet::notify_bytes))]
impl Shown for notify::State {
    ghost bytes = { notify_bytes };

    fn show(&self, out: &mut [u8]) {
        let notified = u8::from(self.notified);
        let did_spur = u8::from(self.did_spur);
        show_at(out, 0, &[0x93, notified, did_spur]);
        show_at(out, 3, &self.synchronize);
    }
}

// A place that no message has holds the zero clock already.
impl Shown for [Clock; MESSAGES] {
    ghost bytes = { λ ks. each clock_bytes (filled zero_clock max_messages ks) };

    fn show(&self, out: &mut [u8]) {
        for (i, clock) in self.iter().enumerate() {
            show_at(out, THREADS * i, clock);
        }
    }
}

#[tactic(auto, unfolding(rules::specs::Sheet::channel_bytes))]
impl Shown for mpsc::State {
    ghost bytes = { channel_bytes };

    fn show(&self, out: &mut [u8]) {
        show_at(out, 0, &[0x94, self.msg_cnt]);
        show_at(out, 2, &self.sender_synchronize);
        show_at(out, 2 + THREADS, &self.receiver_synchronize);
    }
}

#[tactic(auto, unfolding(rules::specs::Sheet::arc_bytes))]
impl Shown for arc::State {
    ghost bytes = { arc_bytes };

    fn show(&self, out: &mut [u8]) {
        show_at(out, 0, &[0x95, low_byte(self.ref_cnt)]);
        show_at(out, 2, &self.synchronize);
    }
}

#[tactic(auto, unfolding(rules::specs::Sheet::cell_bytes))]
impl Shown for cell::State {
    ghost bytes = { cell_bytes };

    fn show(&self, out: &mut [u8]) {
        let reading = low_byte(self.is_reading);
        show_at(out, 0, &[0x96, reading, u8::from(self.is_writing)]);
        show_at(out, 3, &self.read_access);
        show_at(out, 3 + THREADS, &self.write_access);
    }
}

// A thread's record.
pub fn put_thread(sheet: &mut [u8], at: usize, t: &Thread)
    ensures { sheet.new ≡ sets sheet.old at (thread_bytes t.now) }
{
    show_at(sheet, at, t);
}

// An object's record, by the kind that the table gives it.
#[tactic(auto, unfolding(rules::specs::Sheet::object_bytes))]
pub fn put_object(sheet: &mut [u8], at: usize, kind: Kind, e: &Entry)
    ensures { sheet.new ≡ sets sheet.old at (object_bytes kind e.now) }
{
    match kind {
        Kind::Mutex => show_at(sheet, at, &e.mutex),
        Kind::RwLock => show_at(sheet, at, &e.rwlock),
        Kind::Condvar => show_at(sheet, at, &e.condvar),
        Kind::Notify => show_at(sheet, at, &e.notify),
        Kind::Channel => show_at(sheet, at, &e.channel),
        Kind::Arc => show_at(sheet, at, &e.arc),
        Kind::Cell => show_at(sheet, at, &e.cell),
        Kind::Nothing => {}
    }
}
