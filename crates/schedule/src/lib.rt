// When tasks are released as early as allowed, from tick 0 on: the calls to make.
#![tactic(auto)]

mod earliest;

pub use earliest::earliest_releases;
