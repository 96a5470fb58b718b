//! What a program links that is written in another language: scripts that it runs whole, and frames that it runs by
//! turns on threads of its own. `include/frame_jobs.h` says each call to those who write C.
//!
//! *Promise.* Each call is one of the crate frame_calls under its name in C, and says the same: nothing is done here.
//!
//! It takes memory from `malloc`. It starts no thread, waits for nobody, takes no lock and reads no file, so several
//! threads may call it at once.
#![tactic(auto)]

mod answers;
mod frames;
mod helpers;
mod run;
mod scripts;
