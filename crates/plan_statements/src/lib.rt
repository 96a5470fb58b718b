//! The statements that schedule nothing: containers and names, changes, completions, disposals, prints and frames.
//!
//! Each adds at most one operation to the plan, but for `frame`, which reports each container that is overdue. One that
//! is refused whatever the cells are becomes a line to say; whether contents allow a change is seen when the operation
//! is run. All are functions over a world: they change what statements see and answer what they add, which their caller
//! pushes (`specs/Answers` of plan_state). A contract takes what the planner stands for, whatever its draft, from the
//! state before the statement to the one after it (`specs/Steps` of plan_state).
//!
//! | Statement | What the plan gets |
//! |---|---|
//! | those that make a container | what fills its words |
//! | `slice` `view` `copy` `combine` `flush` | nothing |
//! | `set` `add` `put` `remove` `clear` `print` | the operation |
//! | `setcapacity` | a move of the list's words |
//! | `complete` | the end of a segment, if it waits for some job |
//! | `dispose` | nothing |
//! | `frame` | a report of each container that is overdue |
//! | `when` | its line where it is refused; else the section ends before it |
//!
//! *Cost.* A statement costs nothing for each word of its containers. A disposal that waits costs a set of 4,096 bits.
#![tactic(auto)]

mod capacity;
mod changing;
mod completing;
mod containers;
mod disposing;
mod frames;
mod making;
mod names;
mod printing;
mod testing;
mod waiting;

pub use capacity::set_capacity;
pub use changing::{add, clear, put, remove, set};
pub use completing::complete;
pub use disposing::{dispose, dispose_after};
pub use frames::frame;
pub use making::{array, column, list, map, reference, stream};
pub use names::{combine, copy, flush, slice, view};
pub use printing::print;
pub use testing::refuse_test;
pub use waiting::{complete_auto, dispose_auto};
