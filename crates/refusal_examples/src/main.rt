// The examples of the table of refusals, a line each: a window list, then faulty tapes as inspect prints them.
#![tactic(auto)]

use listing::listing;
use model::Window;
use std::io;
use windows::{WindowRefusal, check_list};

const WINDOWS: [Window; 2] = [
    Window {
        partition: 0,
        start: 0,
        length: 4,
    },
    Window {
        partition: 1,
        start: 3,
        length: 1,
    },
];

const TAPES: [&[u8]; 4] = [b"\x50\x54\x00", b"\x00", b"\x54", b"\x46\x00\x01\x45\x45"];

fn main(rt: HostRuntime) -> io::Result<()> {
    match check_list(10, &WINDOWS) {
        Err(refusal @ WindowRefusal::Overlap { window }) => {
            println!(rt; "refused {} window {window}", refusal.number())?;
        }
        Err(refusal) => println!(rt; "refused {}", refusal.number())?,
        Ok(()) => println!(rt; "allowed")?,
    }
    for tape in TAPES {
        let text = listing(rt.alloc(), tape)?;
        print!(rt; "{text}")?;
    }
    Ok(())
}
