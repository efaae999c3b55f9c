// What is known of one partition while a module runs: its jobs, its fault entries, and the clock that they go by.
#![tactic(auto)]

mod choice;
mod clock;
mod event;
mod fault_log;
mod job_table;
mod running_task;

pub use clock::Clock;
pub use job_table::JobTable;
