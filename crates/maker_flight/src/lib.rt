// A flight as an airframe maker might make it, on a timetable and an order of his own: what is promised of its record
// comes from the contract of `fly` alone.
#![tactic(auto)]

mod maker;

pub use maker::fly_in_turns;
