//! Worked scripts on both boards, by the public calls from `parse_script` to `run`, each with its output and status at
//! 1, 4 and 64 workers: on the board without locks, which the program uses, and on the one with a lock, which has to
//! give the same. Two workers that run at once, and sinks that fail, on each board. A board before a run and after
//! runs, runs by turns, and scripts that are run section by section. Tests alone.
//!
//! **Which rows.** Those of `worked_rows` whose scripts are accepted and have one plan. A script with a block that is
//! decided has a plan for each section, and what is printed of all of them is told by the top call.
//!
//! **Calls that wait for good aren't tested.** A call of the board with a lock waits for good where a seat claims
//! what isn't so: a lease, a count or a duty that it hasn't. By public calls no seat comes to that. What a seat
//! claims is what its own calls gave it; it fits its own board alone, since a board is named by a token that it owns;
//! and a call for which a seat has no right can't be written, since its condition can't be proved. So no such call
//! can stand in a test either. The calls of the board without locks don't wait.
#![tactic(auto)]

#[cfg(test)]
mod boards;
#[cfg(test)]
mod meeting;
#[cfg(test)]
mod outcomes;
#[cfg(test)]
mod runs;
#[cfg(test)]
mod scripts;
#[cfg(test)]
mod sinks;
#[cfg(test)]
mod turns;
