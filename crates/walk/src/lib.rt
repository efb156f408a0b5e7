// Every run of a table, in order: the smallest complete list, and the smallest one above another.
#![tactic(auto)]

ghost use Rattle.std.specs.Prelude.{◌≡◌, Ok};
ghost use Rattle.rules.specs.Judge.{step};
ghost use Rattle.rules.specs.Walk.{hand_over, first_table, first_of, next_table, next_of};
ghost use Rattle.walk.specs.Says.{stage_of, Extends, Advances, Completable, Continues, Completes, Marked, Started, PassSays, Raisable, raised_to};

use rules::answer::Answer;
use rules::table::{LIST, Table};
use rules::world::World;
use turns::start;
use turns_run::{Ran, Refusal, run};
use turns_steps::least;
use turns_table::read_table;

// A completion on its way: the table, the world where it stands, and its list so far, the first `at` bytes.
#[derive(Clone, Copy)]
pub struct Completion {
    pub table: Table,
    pub world: World,
    pub list: [u8; LIST],
    pub at: usize,
}

// A place of a list where a larger decision is allowed, the world there, and that decision.
#[derive(Clone, Copy)]
pub struct Mark {
    pub at: usize,
    pub world: World,
    pub decision: u8,
}

fn decide(table: Table, world: World, d: u8) -> Result<Ran, Refusal>
    ensures { stage_of result ≡ step table world d }
{
    run(table, world, &[d])
}

// The decision d, in place, so that a call keeps no copy of the completion. A list that is full stays as it is; none that is completed ever is.
fn extend(c: &mut Completion, d: u8) -> bool
    ensures { Extends c.old d c.new result }
{
    let at = c.at;
    if at >= LIST {
        return false;
    }
    c.list[at] = d;
    c.at = at + 1;
    match decide(c.table, c.world, d) {
        Ok(ran) => {
            c.world = ran.world;
            ran.verdict.is_none()
        }
        Err(_) => false,
    }
}

// The smallest allowed decision.
fn advance(c: &mut Completion) -> bool
    requires { Completable c.old }
    ensures { Advances c.old c.new result }
{
    match least(c.world.asked, c.world.threads, 0) {
        Some(d) => extend(c, d),
        None => false,
    }
}

// It calls itself, once for each decision. All of it is lent, so that a call takes little stack.
fn complete(c: &mut Completion)
    requires { Completable c.old }
    ensures { Completes c.old c.new }
{
    if advance(c) {
        complete(c);
    }
}

// The decision d, and then the smallest completion.
fn continued(mut c: Completion, d: u8) -> Completion
    requires { Completable c }
    ensures { Continues c d result }
{
    if extend(&mut c, d) {
        complete(&mut c);
    }
    c
}

// The list is written if it fits; else its length is told, and nothing is written.
fn hand_over(made: &[u8], list: &mut [u8]) -> Answer
    ensures { record { answer = result; buffer = list.new } ≡ hand_over made.now list.old }
{
    let n = made.len();
    if n <= list.len() {
        list[..n].copy_from_slice(made);
        return Answer::ListWritten(n);
    }
    Answer::TooShort(n)
}

// The smallest complete list of a table that was accepted.
fn first_of(table: Table, list: &mut [u8]) -> Answer
    requires { Started table }
    ensures { record { answer = result; buffer = list.new } ≡ first_table (Ok table) list.old }
{
    let mut c = Completion {
        table,
        world: start(table),
        list: [0; LIST],
        at: 0,
    };
    complete(&mut c);
    hand_over(&c.list[..c.at], list)
}

pub fn first(table: &[u8], list: &mut [u8]) -> Answer
    ensures { record { answer = result; buffer = list.new } ≡ first_of table.now list.old }
{
    match read_table(table) {
        Ok(read) => first_of(read, list),
        Err(refusal) => refusal,
    }
}

// The last mark after the decision d at index i.
fn better(m: Option<Mark>, i: usize, world: World, d: u8) -> Option<Mark>
    ensures { Marked m i world d result }
{
    match least(world.asked, world.threads, d as usize + 1) {
        Some(e) => Some(Mark {
            at: i,
            world,
            decision: e,
        }),
        None => m,
    }
}

// One pass over a list: its last mark, if it has one, or why the list is not complete.
fn pass(table: Table, list: &[u8]) -> Result<Option<Mark>, Answer>
    requires { Started table }
    ensures { PassSays table list.now result }
{
    let mut world = start(table);
    let mut mark = None;
    for (i, &d) in list.iter().enumerate() {
        mark = better(mark, i, world, d);
        let Ok(ran) = decide(table, world, d) else {
            return Err(Answer::NotAllowed(i));
        };
        if ran.verdict.is_some() {
            if i + 1 < list.len() {
                return Err(Answer::Surplus(i + 1));
            }
            return Ok(mark);
        }
        world = ran.world;
    }
    Err(Answer::NotComplete)
}

// The list up to the mark, the mark's decision, and then the smallest completion.
fn raise(table: Table, list: &[u8], m: Mark, out: &mut [u8]) -> Answer
    requires { Raisable table list.now m }
    ensures { record { answer = result; buffer = out.new } ≡ hand_over (raised_to table list.now m) out.old }
{
    let mut kept = [0; LIST];
    kept[..m.at].copy_from_slice(&list[..m.at]);
    let c = Completion {
        table,
        world: m.world,
        list: kept,
        at: m.at,
    };
    let r = continued(c, m.decision);
    hand_over(&r.list[..r.at], out)
}

// The smallest complete list above another, of a table that was accepted.
fn next_of(table: Table, list: &[u8], out: &mut [u8]) -> Answer
    requires { Started table }
    ensures { record { answer = result; buffer = out.new } ≡ next_table (Ok table) list.now out.old }
{
    match pass(table, list) {
        Ok(Some(m)) => raise(table, list, m, out),
        Ok(None) => Answer::NoLaterList,
        Err(a) => a,
    }
}

pub fn next(table: &[u8], list: &[u8], out: &mut [u8]) -> Answer
    ensures { record { answer = result; buffer = out.new } ≡ next_of table.now list.now out.old }
{
    match read_table(table) {
        Ok(read) => next_of(read, list, out),
        Err(refusal) => refusal,
    }
}
