// What a frame reports, as numbers.
ghost use Rattle.frame_ast.specs.States.{ScriptState};
ghost use Rattle.frame_top.specs.Running.{IsReportAt};
ghost use Rattle.frame_host.specs.Reports.{IsFrameReport};

use frame_core::Report;
use job_base::{JobId, Trap};

/// A trap, and which run of a kernel it ended.
#[derive(Clone, Copy, Debug, PartialEq, Eq)]
pub struct FirstTrap {
    /// Counted from 1 in the order of the script.
    pub job: JobId,
    pub index: u32,
    pub trap: Trap,
}

/// What a frame reports.
#[derive(Clone, Copy, Debug, PartialEq, Eq)]
pub struct FrameReport {
    /// How many statements were refused.
    pub refused: u64,
    /// How many runs of kernels trapped.
    pub traps: u64,
    /// The first of them in script order.
    pub first: Option<FirstTrap>,
}

impl FrameReport {
    /// The same of the report of all sections, which names a trap where there is none too.
    pub(crate) fn of(report: &Report) -> FrameReport
        ensures { (s : ScriptState) → IsReportAt s report.now → IsFrameReport s result }
    {
        if report.traps == 0 {
            return FrameReport {
                refused: report.refused,
                traps: 0,
                first: None,
            };
        }
        FrameReport {
            refused: report.refused,
            traps: report.traps,
            first: Some(FirstTrap {
                job: report.job,
                index: report.index,
                trap: report.trap,
            }),
        }
    }
}
