//! The words of the command that draws a frame: those of the command that runs it (`command_words`), and a flag
//! `--dot`, which may stand anywhere but as the value of an option.
#![tactic(auto)]

mod command;
mod words;

pub use command::GraphCommand;
pub use words::read_graph_words;
