// Replays the cases stored in the file `cases`, and says how many agree.
#![tactic(auto)]

mod case;
mod counts;
mod lines;
mod text;

use counts::Tally;
use lines::Lines;
use std::fs::File;
use std::io;
use std::io::Read;
use std::rt::Files;

// As many bytes are read at once.
const PIECE: usize = 4096;

// None if the file cannot be read. Nothing says that it ends, so the turns are counted, up to a number that no run reaches.
fn replay<R: Files + Print>(rt: &R) -> io::Result<Option<Tally>> {
    let Ok(mut file) = File::open(rt, "cases") else {
        return Ok(None);
    };
    let mut lines = Lines::new(rt);
    let mut piece = [0; PIECE];
    for _ in 0..u64::MAX {
        match file.read(&mut piece) {
            Ok(0) => return lines.finish().map(Some),
            Ok(n) => lines.take(&piece[..n])?,
            Err(_) => return Ok(None),
        }
    }
    Ok(None)
}

fn main(rt: HostRuntime) -> io::Result<()> {
    match replay(&rt)? {
        Some(tally) => println!(rt; "{tally}"),
        None => println!(rt; "the file cases cannot be read"),
    }
}
