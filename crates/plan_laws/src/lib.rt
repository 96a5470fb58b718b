//! Why a plan does what its script says: how a plan that is made goes on with each statement, and what it means in the
//! end. These are the laws that a planner stands on. There is no code here: each function is a law, which does nothing,
//! and its contract says the law over the definitions in `specs/`.
//!
//! A script means a state after each statement. A draft is what a planner has made so far: closed segments, jobs, and
//! the segment at hand. One relation joins the two (`Planned`): the pieces are in order for a ledger of who uses which
//! words, the words of containers stand for their contents, and the output so far is that of the script. Each law takes
//! it from before a statement to after it. The last law takes a finished draft to a well ordered plan, whose run in
//! script order gives the output of the script and leaves its contents.
//!
//! Read `specs/` in this order.
//!
//! 1. *The relation.* `Binds` says which words a container, a name and an argument have. `Drafts` has plans so far,
//!    their pieces and output, `Ledgers` who has which words, and `Planned` the relation. `AtStart` and `Sections`
//!    say where it begins.
//! 2. *Statements.* `Operations` is one operation more, whatever it is. `Refusing`, `Making`, `Changing`, `Accessing`,
//!    `Printing`, `Moving`, `Disposing`, `Frames`, `Completing` and `Accepting` are the forms of statements.
//! 3. *The end.* `Finishing` says what a finished draft becomes.
//! 4. *Steps to schedules and to the end.* `Leaving`, `LeftWords` and `Running` say what a job is given and leaves,
//!    word by word, `Apart` and `Enrolling` that its pieces are in order, and `Scheduling` joins them. `WholePlans` and
//!    `Ending` speak of a whole plan as the list of its pieces.
//!
//! A schedule may run another kernel in place of its own (`Accepting`), as `defer_laws` does for the length of a list.
//! What a planner keeps beside the plan, as books and a store of words, isn't spoken of here.
#![tactic(auto)]

pub mod laws;
