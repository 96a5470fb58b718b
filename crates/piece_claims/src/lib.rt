//! Which pieces of a plan's jobs were given out, and which jobs depend on which: what the workers of a run share.
//!
//! *Claims.* [`Claims`] has a count for each job: how many of its pieces were given out, the first ones first. Who
//! calls [`Claims::next`] gets the next ones: one piece, several where pieces are small and enough are left for the
//! other workers, or all that are left where these are little work (some 10 µs, and no loops).
//!
//! *Each piece is given once.* The counts are words of `atomic_table` under a rule (`specs/Given`): pieces are given by
//! tokens, which have no bytes, and no two tokens have one piece. Who is refused a piece of a job has a token that saw
//! all of them given. What was given can't be dropped, so it comes to where it is run.
//!
//! *Followers.* [`Followers`] has for each job the numbers of those that depend on it, each once. So what a finished
//! job releases costs these alone, and not a scan of all jobs.
//!
//! *Promise.* `next` answers pieces of its job that nobody else has (`own`), or says that there is no such job or that
//! all its pieces are given (`spent`). A plan's table has each job that depends on another once (`specs/Followers`);
//! `of` answers those of one job. [`laws`] says that no two tokens have a piece in common, between any two steps.
//! Nothing is said of how many pieces a claim takes.
//!
//! *Cost.* A claim costs a load and an exchange of its job's count, and one exchange more for each worker that was
//! quicker. It takes no memory, no lock and no scan. Making the counts and the table alone takes memory: 8 bytes a job
//! for the counts, twice that until they are made, since `atomic_table` copies the words that it is made of; 8 bytes a
//! job and 4 a dependency for the followers. Its time is linear in jobs and dependencies.
//!
//! *Hostile use.* None: a plan is well ordered, and the number of no job is answered as such.
#![tactic(auto)]

mod claims;
mod followers;
pub mod laws;
mod view;

pub use claims::{Claimed, Claims, Spent, Token};
pub use followers::Followers;
pub use view::{Ruled, View};
