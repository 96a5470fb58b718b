//! Why the pieces of a plan may run in any order that keeps their predecessors, and by any number of workers: the laws
//! that the runtime's core and its boards stand on. There is no code here. The definitions stand in `specs/`, and each
//! function here is a law: it does nothing, and its contract says the law over the definitions.
//!
//! Read `specs/` in this order.
//!
//! 1. *The merge.* `Graph` is a plan as the laws see it: pieces by their place in script order, footprints,
//! predecessors and effects. `Core` says what is running, by leases; `Merge` what the cells hold meanwhile, in two
//! sentences; `Steps` how a piece begins, stores and ends; `MergeLaws` that the merge stays. `Runs` has lists of
//! events, and that every run that ended has the cells of script order.
//! 2. *Boards.* `Jobs`, `Claims` and `Countdowns` say how the pieces of a board without locks are counted by atomic
//! words, `CountSteps` what each atomic step does to them, `CountLaws` that they stay exact. `Rule` joins this with the
//! merge, and `BoardSteps` and `BoardLaws` speak of the whole board.
//! 3. *Plans.* `Pieces` and `Ledger` say what a planner knows of who touches and uses what, `Planning` how a plan goes
//! on, `PlanLaws` that pieces with conflicting footprints stay ordered, also where words are used again. No language
//! occurs in it.
//! 4. *Examples.* `Diamond`, `Examples` and `Reuse` are worked plans. They meet every premise, and the definitions are
//! computed on them.
//!
//! Leases stand under keys of any kind, and steps relate the state before with the state after, cell by cell. So a list
//! of seats, a value behind a lock and a table of atomic words can each be what a law speaks of. No law looks into an
//! effect.
#![tactic(auto)]

pub mod boards;
pub mod countdowns;
pub mod examples;
pub mod merge;
pub mod plans;
pub mod runs;
