// The reader of load tapes.
#![tactic(auto)]

mod load;
mod reader;

pub use reader::{Loaded, ReadRefusal, read};
