// The planner: the shortest windows with which every task of a draft is in time.
#![tactic(auto)]

mod plan;
mod refusal;
mod share;

pub use plan::shortest_windows;
pub use refusal::PlanRefusal;
