// Examples worked out by hand, as tests.
#![tactic(auto)]

#[cfg(test)]
mod drafts;
#[cfg(test)]
mod listings;
#[cfg(test)]
mod long_tapes;
#[cfg(test)]
mod window;
#[cfg(test)]
mod window_lists;
#[cfg(test)]
mod writing;
