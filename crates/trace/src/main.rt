// trace: reads a tape on standard input, flies its module over one frame with each task released as early as allowed, and
// prints a line for each tick, or one line for the refusal.
#![tactic(auto)]

use std::io;
use std::io::Read;
use tape_trace::trace;

fn main(rt: HostRuntime) -> io::Result<()> {
    let mut tape = Vec::new(rt.alloc());
    rt.stdin().read_to_end(&mut tape)?;
    let text = trace(rt.alloc(), tape.as_slice())?;
    print!(rt; "{text}")
}
