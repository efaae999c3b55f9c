// Drafts of a module: partitions and their tasks, within the limits.
#![tactic(auto)]

mod draft;
mod refusal;

pub use draft::{Draft, Partition};
pub use refusal::DraftRefusal;
