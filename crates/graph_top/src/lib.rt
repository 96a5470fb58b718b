//! The picture of a frame script, from the words of the command line to the bytes that are written.
//!
//! `graph_frame` reads the words, the script and the table, and refuses what isn't accepted, by the steps of
//! `frame_top` and in their order. A script without a `when` is planned, and nothing of it is run. One with a `when`
//! has a plan for each section, and which blocks act is known only by running it: so it is run, what it prints goes
//! nowhere, and each section is drawn before its first piece is entered. The pictures go to one sink, and the text of a
//! refusal to another one.
//!
//! *Promise.* Status 0 comes only with the whole text of the script's picture: that of its plan, or those of exactly
//! the sections of its run, each once, in their order; and of every other status but that of a failed write nothing is
//! written to the picture's sink (`specs/Drawn`). Which text a refusal has is said of each of its steps in `frame_top`,
//! and not once more here.
//!
//! *Cost.* The text of all pictures is made before the first byte of it is written.
#![tactic(auto)]

mod drawing;
mod frame;
mod top;
mod watch;

pub use top::graph_frame;
