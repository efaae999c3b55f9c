// Running modules worked out by hand, as tests.
#![tactic(auto)]

#[cfg(test)]
mod clocks;
#[cfg(test)]
mod faults;
#[cfg(test)]
mod jobs_of_tasks;
#[cfg(test)]
mod module_a;
#[cfg(test)]
mod states;
