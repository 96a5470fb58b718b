//! The whole run of a frame script, from the words of the command line to the bytes that are written.
//!
//! `run_frame` reads the words, the script and the table, and refuses what isn't accepted, in the order in which the
//! work is done (`specs/Refusals`). A script that is accepted is planned section by section: a section ends at a
//! `when`, whose test is decided by what was computed before it. A section with jobs is run by the workers of
//! `steal_pool` on a `WordBoard` of its own, which takes no lock; one without jobs needs no more than plain cells and
//! the caller's thread. The lines of all sections wait in one buffer, and those of traps come last.
//!
//! *Promise.* Each status comes with its cause and its text, and each cause with its status (`specs/Answers`), and the
//! statuses are the numbers that are written down (`laws`). What a script writes is its meaning, `output_of`, whatever
//! the number of workers and the cuts of its jobs.
//!
//! `run_watched` is the same with something that looks on (`Watch`): it is told of each section before and after it.
//! It changes nothing of the answer, so each clause is that of `run_frame`; and where the script ran, what it was told
//! is exactly the script's sections, each once, in their order (`specs/Seen`).
//!
//! The steps that read and refuse are public too, for programs that do something else with a script than run it, and so
//! are the steps from section to section, for those who run a section themselves.
//!
//! A job of little work is one piece, unless what looks on asks for the pieces as they are scheduled.
//!
//! A table is read for its script: of the columns that no statement names no value is kept. `table_laws` says that
//! nothing depends on them.
//!
//! *Cost.* Beside the plan of a section with jobs its board, its deques and its scratch are made, each as large as the
//! plan asks for, and its cells once more where a test follows. A section without jobs copies the cells that the last
//! one left, once.
#![tactic(auto)]

mod alone;
mod columns;
mod extent;
mod frame;
mod inputs;
pub mod laws;
mod on_board;
mod on_cells;
mod section;
mod sections;
pub mod status;
mod texts;
mod top;
mod watch;
mod workers;

pub use alone::run_source;
pub use extent::Extent;
pub use frame::{first_when, refuse_missing};
pub use inputs::{Options, options_of, parse_table, read_source, read_table_file};
pub use section::SectionRun;
pub use sections::{Progress, begin_frame, close, finish, next_section, run_sections, take_run};
pub use texts::{refuse_plan, refuse_script, refuse_source, refuse_table, say};
pub use top::{answer_command, run_frame, run_watched};
pub use watch::{GateAlone, Watch};
pub use workers::Workers;
