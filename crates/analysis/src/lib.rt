// Whether tasks are in time, on any timetable and under any local order, and the verdict on a module. Supply is carried tick
// by tick, against demand; nothing allocates.
#![tactic(auto)]

mod findings;
mod judging;
mod local_task;
mod owners;
mod partition;
mod passing;
mod places;
mod response;
mod stretch;

pub use findings::{Findings, examine};
pub use judging::verdict;
pub use passing::{failing_start, passes};
pub use places::Places;
