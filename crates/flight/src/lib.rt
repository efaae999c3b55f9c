// Flights: a module is sealed and started, calls are made, and each is recorded with its answer.
#![tactic(auto)]

mod asking;
mod flying;
mod parts;

pub use flying::fly;
pub use parts::Flight;
