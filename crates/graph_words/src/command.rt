//! What the words say.

use command_words::Command;

/// A command to draw a frame that was accepted.
#[derive(Debug, Drop)]
pub struct GraphCommand {
    /// The script, its table and the workers; it asks for no depth.
    pub command: Command,
    /// In the language of Graphviz, and not as a page.
    pub dot: bool,
}
