//! Worked cases of traced runs: the status, the lines and the trace that words and a script give, on a clock that
//! counts its readings. Tests alone.
#![tactic(auto)]

#[cfg(test)]
mod traces;
