//! The planner: from a checked script and its table to plans that any number of workers can run.
//!
//! It goes through the statements in their order, as the script's thread would, and keeps what that thread knows
//! (`plan_state`). A statement that is refused whatever the cells are becomes a line to say; a schedule closes the
//! segment at hand and starts a job (`plan_schedules`); everything else becomes at most one operation on cells
//! (`plan_statements`). Here are the way from statement to statement, the limits of the language, and the sections: a
//! plan ends at each `when` that acts, and the next one begins with the words that it left.
//!
//! To share a job among workers takes locked steps for each piece, so a job of little work gains nothing by it: it may
//! be one piece ([`SmallJobs`]). Each other job is cut as its schedule says.
//!
//! A plan has the ranges and the jobs of the definitions, and no others (`specs/Layouts`). Why it does what its script
//! says is shown in `plan_laws`.
//!
//! *Cost.* A script is gone through once, and once more for its limits where it has a `when`. The names of a script are
//! copied once, and go from the plan of one section to the next by the book, which takes each plan back, as the copies
//! of kernels and their code do: a kernel is compiled once, however many sections schedule it.
#![tactic(auto)]

mod answers;
mod binding;
mod finishing;
mod limits;
mod missing;
mod names;
mod planner;
mod resume;
mod section;
mod sections;
mod small_jobs;
mod whole;

pub use missing::missing_column;
pub use plan_state::PlanFault;
pub use section::{Section, Test};
pub use sections::SectionBook;
pub use small_jobs::SmallJobs;
pub use whole::plan;
