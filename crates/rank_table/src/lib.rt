// A local order as an airframe maker might add it: a table of ranks, by partition and task number; the lower rank goes
// first.
#![tactic(auto)]

mod ranks;

pub use ranks::RankTable;
