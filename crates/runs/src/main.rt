// Reads a table's bytes from standard input, and prints a line for each of its runs.
#![tactic(auto)]

use std::io;

fn main(rt: HostRuntime) -> io::Result<()> {
    listing::list_runs(&mut rt.stdin(), &mut rt.stdout())
}
