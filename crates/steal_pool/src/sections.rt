// Reports of a frame that is run in sections.
ghost use Rattle.std.specs.Prelude.{◌≡◌, ◌+◌, ◌<◌, ◌^◌, ◌++◌, List};
ghost use Rattle.frame_ast.specs.States.{JobTrap};
ghost use Rattle.frame_core.specs.Reports.{IsReportOf};
ghost use Rattle.steal_pool.specs.Sections.{shifted};

use frame_core::Report;
use job_base::JobId;

/// The report of a frame's earlier sections, joined with that of the next one. The sections before it have so many
/// jobs, and the job that is named has its number in the frame.
pub fn join_reports(earlier: &Report, jobs_before: u32, section: &Report) -> Report
    requires traps { earlier.now.traps + section.now.traps < 2 ^ 64 }
    requires refused { earlier.now.refused + section.now.refused < 2 ^ 64 }
    requires job { 0 < section.now.traps → section.now.job.0 + jobs_before < 2 ^ 32 }
    ensures traps { (a b : List JobTrap) → IsReportOf a earlier.now → IsReportOf b section.now
        → IsReportOf (a ++ shifted jobs_before b) result }
    ensures refused { result.refused ≡ earlier.now.refused + section.now.refused }
{
    let refused = earlier.refused + section.refused;
    if section.traps == 0 {
        return Report {
            refused,
            ..*earlier
        };
    }
    let traps = earlier.traps + section.traps;
    if earlier.traps > 0 {
        return Report {
            traps,
            refused,
            ..*earlier
        };
    }
    Report {
        traps,
        refused,
        job: JobId(section.job.0 + jobs_before),
        ..*section
    }
}
