// The writer of load tapes.
#![tactic(auto)]

mod writer;

pub use writer::{WriteRefusal, write};
