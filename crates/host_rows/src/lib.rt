//! Frames as a program with its own loop runs them: turns of the script's thread and of helpers one after another, on
//! one thread, and a helper on a thread of its own; and the calls on handles. Tests alone.
#![tactic(auto)]

#[cfg(test)]
mod frames;
#[cfg(test)]
mod handles;
#[cfg(test)]
mod refused;
#[cfg(test)]
mod running;
#[cfg(test)]
mod sent;
#[cfg(test)]
mod whole;
