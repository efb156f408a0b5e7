// Every run of a table in order, each with its verdict. A run begins as the one before it does, so that only its tail is run anew, from a kept world.
#![tactic(auto)]

ghost use Rattle.std.specs.Prelude.{◌≡◌, ◌-◌, ◌≤◌, length};
ghost use Rattle.rules.specs.Limits.{max_list};
ghost use Rattle.turns_run.specs.Run.{nowhere};
ghost use Rattle.walker.specs.Walking.{completed, last_below, moved, at_start, nearer, begun, advanced};

use clocks::THREADS;
use rules::answer::Answer;
use rules::table::{LIST, Table};
use rules::world::World;
use turns::start;
use turns_run::{nowhere, run};
use turns_steps::least;

// A kept world stands this far before the place of a change, and is moved on where it stands more than twice as far.
const NEAR: usize = 3;

// A run: the first `at` bytes of its list, at each place the smallest larger decision that is allowed, and its verdict or its refusal.
#[derive(Clone, Copy)]
pub struct Path {
    pub list: [u8; LIST],
    pub later: [Option<u8>; LIST],
    pub at: usize,
    pub verdict: Option<Answer>,
}

// The world before the decision `from` of a list.
#[derive(Clone, Copy)]
pub struct Kept {
    pub world: World,
    pub from: usize,
}

// A walk, where it stands.
#[derive(Clone, Copy)]
pub struct Walker {
    pub table: Table,
    pub path: Path,
    pub kept: Kept,
}

// The smallest allowed decision that is `low` or more, and then the smallest ones, until the run ends. Where none is allowed, a number that is no decision is taken, and the run is refused.
fn complete(table: Table, mut world: World, mut path: Path, low: u8) -> Path
    ensures { result ≡ completed table (max_list - path.at) world path low }
{
    let mut from = low;
    for at in path.at..LIST {
        let sought = least(world.asked, world.threads, usize::from(from));
        let d = sought.unwrap_or(from.max(THREADS as u8));
        path.list[at] = d;
        path.later[at] = least(world.asked, world.threads, usize::from(d) + 1);
        path.at = at + 1;
        match run(table, world, &[d]) {
            Ok(ran) => {
                path.verdict = ran.verdict;
                world = ran.world;
            }
            Err(refusal) => path.verdict = Some(refusal.into()),
        }
        if path.verdict.is_some() {
            return path;
        }
        from = 0;
    }
    path
}

// The last of the first n places where a larger decision is allowed.
fn last_below(later: &[Option<u8>], n: usize) -> Option<usize>
    requires { n ≤ length later.now }
    ensures { result ≡ last_below later.now n }
{
    later[..n].iter().rposition(|e| e.is_some())
}

// What is kept where the way on is refused: no world is left.
fn nothing_kept(from: usize) -> Kept
    ensures { result ≡ record { world = nowhere; from = from } }
{
    Kept {
        world: nowhere(),
        from,
    }
}

// The kept world, moved on to the place `to`; a refusal leaves no world.
fn moved(table: Table, list: &[u8], kept: Kept, to: usize) -> Kept
    requires { to ≤ length list.now }
    ensures { result ≡ moved table list.now kept to }
{
    if to <= kept.from {
        return kept;
    }
    match run(table, kept.world, &list[kept.from..to]) {
        Ok(ran) => Kept {
            world: ran.world,
            from: to,
        },
        Err(_) => nothing_kept(to),
    }
}

fn at_start(table: Table) -> Kept
    ensures { result ≡ at_start table }
{
    Kept {
        world: start(table),
        from: 0,
    }
}

// What is kept for a change at the place p: the start where the kept world stands behind it.
fn nearer(table: Table, list: &[u8], kept: Kept, p: usize) -> Kept
    requires { p ≤ length list.now }
    ensures { result ≡ nearer table list.now kept p }
{
    let base = if p < kept.from { at_start(table) } else { kept };
    if p - base.from <= 2 * NEAR {
        return base;
    }
    moved(table, list, base, p - NEAR)
}

// The first run.
pub fn begin(table: Table) -> Walker
    ensures { result ≡ begun table }
{
    let kept = at_start(table);
    // What stands past `at` says nothing.
    let none = Path {
        list: [0; LIST],
        later: [Some(0); LIST],
        at: 0,
        verdict: None,
    };
    Walker {
        table,
        path: complete(table, kept.world, none, 0),
        kept,
    }
}

// The next run: the last decision that can be raised is, and then the smallest ones follow. Where none can be, no run is left.
pub fn advance(w: Walker) -> Option<Walker>
    ensures { result ≡ advanced w }
{
    let table = w.table;
    let path = w.path;
    let p = last_below(&path.later, path.at.min(LIST))?;
    let d = path.later[p]?;
    let kept = nearer(table, &path.list, w.kept, p);
    let here = moved(table, &path.list, kept, p);
    let stem = Path { at: p, ..path };
    Some(Walker {
        table,
        path: complete(table, here.world, stem, d),
        kept,
    })
}
