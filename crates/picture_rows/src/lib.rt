//! The texts of pictures that were written by hand. Tests alone.
#![tactic(auto)]

#[cfg(test)]
mod texts;
