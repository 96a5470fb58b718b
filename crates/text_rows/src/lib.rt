//! Texts: the grammar's sentences, tokens, kernels as they are written and as they are checked, and whole scripts, each
//! as rows of a text and what it gives. Tests alone.
#![tactic(auto)]

#[cfg(test)]
mod checked_kernels;
#[cfg(test)]
mod raw_kernels;
#[cfg(test)]
mod script_faults;
#[cfg(test)]
mod scripts;
#[cfg(test)]
mod sentences;
#[cfg(test)]
mod tokens;
