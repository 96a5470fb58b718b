//! Deferred lengths: a parallel kernel that does nothing at the indexes from a length on, which it reads when it runs.
//!
//! A job whose length is that of a list runs as many indexes as the list can hold. `guard` makes the kernel for it:
//! with one more array at the end, whose first element is the length, and with the old statements inside
//! `if index < length[0] { .. }`. So the words of a job are known before it runs, and the length needn't be.
//!
//! The new kernel is a copy: its tree lies in memory of its own.
//!
//! `specs/Guarded` says what the new kernel is, what it does, and which words it reads and writes.
#![tactic(auto)]

mod guarding;

pub use guarding::{GuardFault, guard};
