// inspect: reads a tape on standard input and prints it, a line a command, or one line for its fault.
#![tactic(auto)]

use listing::listing;
use std::io;
use std::io::Read;

fn main(rt: HostRuntime) -> io::Result<()> {
    let mut tape = Vec::new(rt.alloc());
    rt.stdin().read_to_end(&mut tape)?;
    let text = listing(rt.alloc(), tape.as_slice())?;
    print!(rt; "{text}")
}
