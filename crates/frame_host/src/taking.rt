// The end of a section: its board is closed, and the frame takes over what it came to.
ghost use Rattle.std.specs.Prelude.{◌≡◌, false, true};
ghost use Rattle.frame_host.specs.Frames.{EndsAs, IsRun, IsToFinish, columns_in, tree_in};

use crate::answer::{FrameAnswer, FrameEnd};
use crate::frame::Frame;
use crate::report::FrameReport;
use frame_core::Board;
use frame_stage::Stage;
use frame_top::status::UNWRITTEN;
use frame_top::{SectionRun, finish, take_run};
use job_base::FlatMem;
use plan_run::RunEnd;
use std::alloc::Global;
use steal_pool::Place;
use word_board::WordSeat;

// The answer of a frame whose last section was run, and left these cells.
fn answer_of(frame: Frame, cells: FlatMem) -> FrameEnd
    requires last { IsToFinish frame cells }
    ensures { EndsAs (tree_in frame) (columns_in frame) result }
{
    let mut frame = frame;
    let report = FrameReport::of(&frame.progress.report);
    let status = finish(&mut frame.progress, &mut frame.text);
    if status == UNWRITTEN {
        return FrameEnd::NoMemory;
    }
    let Frame {
        tree,
        table,
        text,
        book,
        ..
    } = frame;
    FrameEnd::Over(FrameAnswer {
        status,
        text: text.bytes,
        report,
        tree,
        table,
        book,
        cells: cells.into_cells(),
    })
}

// The cells for the next section, where there is one, and those that stay with the answer.
fn share_out(alloc: Global, goes_on: bool, left: FlatMem) -> (FlatMem, FlatMem)
    ensures handed { goes_on ≡ true → result.0 ≡ left }
    ensures kept { goes_on ≡ false → result.1 ≡ left }
{
    let none = FlatMem::of(Vec::new(alloc));
    if goes_on { (left, none) } else { (none, left) }
}

/// Closes the board of a section that was run, and takes over what it came to.
pub(crate) fn take_section(
    alloc: Global,
    frame: Frame,
    stage: Stage,
    place: Place<WordSeat>,
    left: FlatMem,
    end: RunEnd,
) -> FrameEnd
    requires run { IsRun frame stage place left end }
    ensures { EndsAs (tree_in frame) (columns_in frame) result }
{
    let Stage {
        section,
        board,
        shared: _,
    } = stage;
    let mut left = left;
    board.close(place.into_seat(), &mut left);
    let (handed, kept) = share_out(alloc, section.test.is_some(), left);
    let ran = SectionRun {
        report: end.report(),
        failed: end.is_fault(),
        left: handed,
    };
    let mut frame = frame;
    let more = take_run(section, ran, &mut frame.book, &mut frame.progress);
    if end.is_fault() {
        return FrameEnd::NoMemory;
    }
    if more {
        FrameEnd::Next(frame)
    } else {
        answer_of(frame, kept)
    }
}
