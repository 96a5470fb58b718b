//! Sections of scripts, planned and then looked at, with nothing run: what is planned of each statement, what plans say
//! of jobs and words, which words pieces read and write, legal and illegal events, guards, depths and limits. Tests
//! alone.
#![tactic(auto)]

#[cfg(test)]
mod depths;
#[cfg(test)]
mod footprints;
#[cfg(test)]
mod guards;
#[cfg(test)]
mod limits;
#[cfg(test)]
mod plans;
#[cfg(test)]
mod replays;
#[cfg(test)]
mod small_jobs;
#[cfg(test)]
mod statements;
#[cfg(test)]
mod tested_limits;
#[cfg(test)]
mod texts;
