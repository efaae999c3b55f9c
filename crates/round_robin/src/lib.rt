// A timetable as an airframe maker might add it: partitions 0, 1, 2, .. take turns of equal length.
#![tactic(auto)]

mod turns;

pub use turns::RoundRobin;
