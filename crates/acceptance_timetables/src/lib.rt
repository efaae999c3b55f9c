// Timetables and local orders worked out by hand, as tests.
#![tactic(auto)]

#[cfg(test)]
mod cycles;
#[cfg(test)]
mod lists;
#[cfg(test)]
mod makers;
#[cfg(test)]
mod orders;
#[cfg(test)]
mod shifts;
