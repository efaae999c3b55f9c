// Load tapes: the commands, their bytes and their faults, and the definitions of reading and writing.
#![tactic(auto)]

mod command;
mod fault;
mod theorems;

pub use command::{Command, Turn, next_command};
pub use fault::{CommandFault, Layer, TapeFault};
pub use theorems::{first_fault_stands, round_trip_stands};
