//! What a program in another language does with frames, by handles that it keeps: the calls, but for their names in C,
//! which are in the crate frame_jobs.
//!
//! *Promise.* Of [`run_script`], status and text are those of the script's meaning, as `run_frame` says them of files
//! with these bytes (`specs/Calls`); 7 comes exactly where the text is longer than the buffer. Of the calls on frames,
//! what a frame comes to is the script's meaning with its columns, whatever threads took which turns in what order: the
//! status, the text, the report, and what each container holds at the end (`specs/Hosting`).
//!
//! *Handles.* A handle is a pointer that the program keeps and doesn't look behind. It has a script, arrays, a frame, a
//! helper of a frame, or nothing, where it is null; and what it has is sound (`specs/Holding`), since nobody else makes
//! one. A call that isn't one for what its handle has answers so, and changes nothing: no call wants anything of a
//! handle but that the program gives it to one call at a time, and uses no copy of it. A handle may go from thread to
//! thread: it is `Send`, which is proved for all that one can have (`proofs/Sent`).
//!
//! *Cost.* The text of [`run_script`] goes from the run's own buffer straight into the caller's, and no memory is taken
//! for it. What finds no room is counted alone. A call on a handle moves what it has out of its block and back, and
//! takes no memory for that.
//!
//! It starts no thread, waits for nobody, takes no lock and reads no file.
#![tactic(auto)]

mod answering;
mod buffer;
mod copying;
mod framing;
mod held;
mod helping;
mod host;
mod opening;
mod run;
pub mod status;
mod written;

pub use answering::{HostReport, read, report, text};
pub use framing::{begin, end, next, turn};
pub use helping::{give_helper, help};
pub use host::HostHandle;
pub use opening::{add_column, close, open, share};
pub use run::run_script;
