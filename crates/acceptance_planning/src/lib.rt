// Verdicts and shortest windows worked out by hand, as tests.
#![tactic(auto)]

#[cfg(test)]
mod modules;
#[cfg(test)]
mod shortest;
#[cfg(test)]
mod verdicts;
