// plan: reads a tape on standard input and prints the shortest windows of its module, or one line for the refusal.
#![tactic(auto)]

use plan_listing::plan_text;
use std::io;
use std::io::Read;

fn main(rt: HostRuntime) -> io::Result<()> {
    let mut tape = Vec::new(rt.alloc());
    rt.stdin().read_to_end(&mut tape)?;
    let text = plan_text(rt.alloc(), tape.as_slice())?;
    print!(rt; "{text}")
}
