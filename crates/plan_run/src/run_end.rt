// How a run ended.

use frame_core::Report;

/// How a run ended. The report is that of the whole run, whatever was written.
#[derive(Clone, Copy, Debug, PartialEq, Eq)]
pub enum RunEnd {
    /// Everything was written.
    Done(Report),
    /// A write failed. Nothing was written after it, and all pieces were run all the same.
    WriteFault(Report),
}

impl RunEnd {
    ghost use Rattle.std.specs.Prelude.{◌≡◌};
    ghost use Rattle.plan_run.specs.Runs.{is_fault, report_of};

    /// The end of a run with this report.
    pub fn of(failed: bool, report: Report) -> RunEnd
        ensures fault { is_fault result ≡ failed }
        ensures report { report_of result ≡ report }
    {
        if failed {
            RunEnd::WriteFault(report)
        } else {
            RunEnd::Done(report)
        }
    }

    /// Whether a write failed.
    pub fn is_fault(self) -> bool
        ensures { result ≡ is_fault self }
    {
        matches!(self, RunEnd::WriteFault(_))
    }

    /// The report of the whole run.
    pub fn report(self) -> Report
        ensures { result ≡ report_of self }
    {
        match self {
            RunEnd::Done(report) | RunEnd::WriteFault(report) => report,
        }
    }
}
