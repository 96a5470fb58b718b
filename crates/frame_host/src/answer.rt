// What a section and a frame come to.

use crate::frame::Frame;
use crate::report::FrameReport;
use frame_ast::script::Script;
use frame_plan::SectionBook;
use std::alloc::Global;
use std::sync::Arc;
use table_in::Table;

/// The answer of a frame: what the script means with its columns.
#[derive(Drop)]
pub struct FrameAnswer {
    /// That of the program `frame_run`: 0, 1 where a statement was refused, or 5 where a job trapped.
    pub status: u8,
    /// What the script prints, with the lines of its refusals and traps.
    pub text: Vec<u8>,
    /// How many statements were refused and how many runs of kernels trapped, and the first trap.
    pub report: FrameReport,
    // of which it is the answer
    pub(crate) tree: Arc<Script, Global>,
    pub(crate) table: Table,
    // where its containers lie, and the cells that its last section left
    pub(crate) book: SectionBook,
    pub(crate) cells: Vec<i64>,
}

/// What comes after a section.
#[derive(Drop)]
pub enum FrameEnd {
    /// There is another section.
    Next(Frame),
    /// It was the last one.
    Over(FrameAnswer),
    /// Memory wasn't found for the text. Nothing is left of the frame.
    NoMemory,
}
