// A list of decisions, run from a world, which is lent from step to step: nothing but what a step changes is written.
#![tactic(auto)]

ghost use Rattle.std.specs.Prelude.{◌≡◌, true, false, Some, None};
ghost use Rattle.lists.specs.Judge.{judge};
ghost use Rattle.rules.specs.Effect.{wait_of};
ghost use Rattle.rules.specs.Ground.{thread_at, put_thread};
ghost use Rattle.rules.specs.Judge.{step as decide};
ghost use Rattle.rules.specs.Object.{entry_at, put_entry};
ghost use Rattle.rules.specs.Turn.{is_allowed};
ghost use Rattle.objects.specs.Settled.{settled};
ghost use Rattle.turns_steps.specs.declared.Acting.TheVariants.{Moves};
ghost use Rattle.turns_steps.specs.Loud.{takes_effect, outcome_of, recorded_in, next_in};
ghost use Rattle.turns_steps.specs.Quiet.{who};
ghost use Rattle.turns_steps.specs.Step.{chosen};
ghost use Rattle.turns_run.specs.Run.{followed, nowhere, ran_of, answer_of, Placed};
ghost use Rattle.turns_run.specs.Steps.{next_op, quiet_of, rested, effect_of, affected, InStore, Follows};

use clocks::{THREADS, ThreadId};
use objects::{absent as no_object, asks, effect, set_last_access};
use objects_calls::wait_of;
use objects_record::absent;
use rules::access::Access;
use rules::answer::Answer;
use rules::object::{Entry, Failure, OBJECTS, ObjectId};
use rules::table::{Op, Table};
use rules::thread::Thread;
use rules::world::World;
use turns_after::{after, leak_check};
use turns_loud::{asked_in, op_in, turn_in, version, wakes_spuriously};
use turns_onward::{after_effect, next_in, outcome};
use turns_quiet::{is_barred, is_quiet, quietly};
use turns_steps::{Acting, Move, allowed_in, chosen, is_begun, place_of, subject, who};
use turns_table::no_op;

// A list that is refused, and where.
#[derive(Clone, Copy)]
pub enum Refusal {
    NotAllowed(usize),
    Surplus(usize),
}

// A world, and the verdict in it; with none the next decision is wanted.
#[derive(Clone, Copy)]
pub struct Ran {
    pub verdict: Option<Answer>,
    pub world: World,
}

// A world in which nothing is, for who keeps a world and has a list refused.
#[tactic(auto, unfolding(crate::specs::Run::nowhere))]
pub fn nowhere() -> World
    ensures { result ≡ nowhere }
{
    World {
        threads: [absent(); THREADS],
        objects: [no_object(); OBJECTS],
        turn: 0,
        asked: None,
    }
}

fn thread(threads: &[Thread; THREADS], t: ThreadId) -> Thread
    ensures { result ≡ thread_at threads.now t }
{
    match threads.get(t.0 as usize) {
        Some(x) => *x,
        None => absent(),
    }
}

fn put(threads: &mut [Thread; THREADS], t: ThreadId, x: Thread)
    ensures { threads.new ≡ put_thread threads.old t x }
{
    let i = t.0 as usize;
    if i < THREADS {
        threads[i] = x;
    }
}

fn object(objects: &[Entry; OBJECTS], o: ObjectId) -> Entry
    ensures { result ≡ entry_at objects.now o }
{
    match objects.get(o.0 as usize) {
        Some(e) => *e,
        None => no_object(),
    }
}

// The move that a decision chooses, if it is allowed.
fn decision(world: &World, d: u8) -> Option<Move>
    ensures { result ≡ elim (is_allowed world.now.asked world.now.threads d) [ true ↦ Some (chosen world.now.asked d) | false ↦ None ] }
{
    let m = chosen(world.asked, d);
    if allowed_in(world.asked, thread(&world.threads, who(m)).state, d) {
        return Some(m);
    }
    None
}

// The operation of a move of a thread that stands at `position`, if one is left.
fn op_of(table: &Table, position: u8, m: Move) -> Option<Op>
    ensures { result ≡ next_op table.now position m }
{
    let k = place_of(table.counts, position, m)?;
    table.ops.get(k).copied()
}

// A step that leaves its object as it is; `x` is its thread's record.
fn rest(world: &mut World, m: Move, left: bool, op: Op, x: Thread) -> Acting
    ensures acting { result ≡ (quiet_of m left op x world.old).acting }
    ensures world { world.new ≡ rested world.old (who m) (quiet_of m left op x world.old) }
{
    let e = object(&world.objects, subject(x.phase, m, op));
    let barred = is_barred(is_begun(m), op.call, e);
    let ask = asks(op.call, e);
    let q = quietly(m, left, op, barred, ask, x, world.turn, world.asked);
    put(&mut world.threads, who(m), q.thread);
    world.turn = q.turn;
    world.asked = q.asked;
    q.acting
}

// What takes effect: an operation, or a spurious wake, on an object that is lent.
fn affect(
    m: Move,
    work: Op,
    e: &mut Entry,
    threads: &mut [Thread; THREADS],
) -> Result<Option<u16>, Failure>
    ensures { record { answer = result; entry = e.new; threads = threads.new } ≡ settled (takes_effect m work.call (who m) work.object e.old threads.old) e.old threads.old }
{
    if wakes_spuriously(m) {
        e.notify = objects_notify::spur(e.notify);
        return Ok(None);
    }
    effect(work.call, who(m), work.object, e, threads)
}

// The same in the store: an object that there is none of is put nowhere.
fn affect_at(
    objects: &mut [Entry; OBJECTS],
    threads: &mut [Thread; THREADS],
    m: Move,
    work: Op,
) -> Result<Option<u16>, Failure>
    ensures { InStore m work objects.old threads.old result objects.new threads.new }
{
    let o = work.object.0 as usize;
    if o < OBJECTS {
        return affect(m, work, &mut objects[o], threads);
    }
    affect(m, work, &mut no_object(), threads)
}

// The first half of a step that changes its object; `position` is where its thread stands.
fn act(world: &mut World, m: Move, work: Op, position: u8) -> Acting
    ensures acting { result ≡ outcome_of (effect_of m work world.old).answer m work position }
    ensures world { world.new ≡ affected work.object world.old (effect_of m work world.old) }
{
    let done = affect_at(&mut world.objects, &mut world.threads, m, work);
    outcome(done, m, work, position)
}

// An announced operation's access is recorded.
fn note(objects: &mut [Entry; OBJECTS], m: Move, work: Op, access: Access)
    ensures { objects.new ≡ put_entry objects.old work.object (recorded_in m work.call access (entry_at objects.old work.object)) }
{
    let o = work.object.0 as usize;
    if is_begun(m) && o < OBJECTS {
        set_last_access(work.call, access, &mut objects[o]);
    }
}

// The second half: the access is recorded, and the thread goes on.
#[tactic(auto, unfolding(crate::specs::Run::followed))]
fn follow(world: &mut World, m: Move, work: Op, answer: Option<u16>) -> Acting
    ensures acting { result ≡ next_in m (wait_of work.call) (thread_at world.old.threads (who m)).position }
    ensures world { world.new ≡ followed m work answer world.old }
{
    let x = thread(&world.threads, who(m));
    let wait = wait_of(work.call);
    let v = version(m, work.call, object(&world.objects, work.object), x);
    world.turn = turn_in(m, world.turn);
    world.asked = asked_in(m, world.asked);
    put(
        &mut world.threads,
        who(m),
        after_effect(m, wait, answer, v, x),
    );
    let access = Access {
        path_id: world.turn,
        version: v,
    };
    note(&mut world.objects, m, work, access);
    next_in(m, wait, x.position)
}

// A move: its operation is found, and it leaves its object as it is or takes effect.
fn step(table: &Table, world: &mut World, m: Move) -> Acting
    requires { Placed table.now }
    ensures { Follows table.now (Moves m) world.old result world.new }
{
    let x = thread(&world.threads, who(m));
    let next = op_of(table, x.position, m);
    let op = next.unwrap_or(no_op());
    if is_quiet(x.phase, m, next.is_some(), op.call) {
        return rest(world, m, next.is_some(), op, x);
    }
    act(world, m, op_in(x.phase, m, op), x.position)
}

pub fn run(table: Table, world: World, list: &[u8]) -> Result<Ran, Refusal>
    ensures { result ≡ ran_of (judge (decide table) 0 world list.now) }
{
    let mut world = world;
    let mut acting = Acting::Nobody;
    let mut at = 0;
    loop {
        match acting {
            Acting::Nobody => {
                if at >= list.len() {
                    return Ok(Ran {
                        verdict: None,
                        world,
                    });
                }
                let Some(m) = decision(&world, list[at]) else {
                    return Err(Refusal::NotAllowed(at));
                };
                acting = Acting::Moves(m);
                at += 1;
            }
            Acting::Moves(m) => acting = step(&table, &mut world, m),
            Acting::InEffect(m, work, answer) => acting = follow(&mut world, m, work, answer),
            Acting::Over => acting = after(world.threads),
            Acting::AllEnded => acting = Acting::Done(leak_check(world.objects)),
            Acting::Done(a) => {
                if at < list.len() {
                    return Err(Refusal::Surplus(at));
                }
                return Ok(Ran {
                    verdict: Some(a),
                    world,
                });
            }
        }
    }
}

impl From<Refusal> for Answer {
    ghost from_gives = { λ r a. a ≡ answer_of r };

    fn from(refusal: Refusal) -> Answer {
        match refusal {
            Refusal::NotAllowed(i) => Answer::NotAllowed(i),
            Refusal::Surplus(i) => Answer::Surplus(i),
        }
    }
}
