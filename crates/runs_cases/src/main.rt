// The runs of the stored tables, one after another.
#![tactic(auto)]

use std::fs::File;
use std::io;
use std::rt::Files;

fn list<R: Files + Print>(rt: &R, name: &str) -> io::Result<()> {
    let Ok(mut file) = File::open(rt, name) else {
        return println!(rt; "a file cannot be read");
    };
    listing::list_runs(&mut file, &mut io::writer(rt))
}

fn main(rt: HostRuntime) -> io::Result<()> {
    for name in ["refused", "empty", "several", "many", "long"] {
        list(&rt, name)?;
    }
    Ok(())
}
