// The vocabulary that every crate shares: tasks and windows with their limits, jobs, calls and what they answer, and
// verdicts; and the theorems on the definitions.
#![tactic(auto)]

mod call;
mod entry;
mod job;
mod refusal;
mod reply;
mod task;
mod task_record;
pub mod theorems;
mod verdict;
mod window;

pub use call::{Call, Request};
pub use entry::Entry;
pub use job::{Job, TaskState};
pub use refusal::{Fault, Refusal};
pub use reply::{Progress, Reply, Turn};
pub use task::Task;
pub use task_record::TaskRecord;
pub use verdict::{LateTask, Verdict};
pub use window::Window;
