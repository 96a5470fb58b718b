// What the handles of a host have.

use frame_host::{Frame, FrameAnswer, FrameScript, FrameSection};
use frame_stage::FrameHelper;
use table_in::Table;

/// What one handle has.
#[derive(Drop)]
pub enum Held {
    /// What a call took out, and didn't put back yet. No handle has it between two calls.
    Lost,
    /// Arrays by their names, for a frame.
    Columns(Table),
    /// A script that was read.
    Read(FrameScript),
    /// A frame between two sections.
    Between(Frame),
    /// A frame in a section.
    Underway(FrameSection),
    /// A frame at its end.
    Answered(FrameAnswer),
    /// A helper of a section.
    Helping(FrameHelper),
}
