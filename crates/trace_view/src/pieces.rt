// The pieces of a job.
ghost use Rattle.std.specs.Prelude.{◌≡◌, ◌<◌, IfOk, map};
ghost use Rattle.frame_core.specs.Names.{pieces_of};
ghost use Rattle.frame_core.specs.Ordered.{IsCutIn};
ghost use Rattle.trace_view.specs.Shapes.{piece_shape, shape_at, piece_shapes};

use crate::notes::Notes;
use frame_core::JobPlan;
use job_base::NoMemory;
use std::alloc::Global;
use trace_text::PieceTrace;

// The piece of a job at a place among its pieces, of which there are so many.
fn piece_trace(notes: Notes<'_>, job: &JobPlan, i: u32, pieces: u32) -> PieceTrace
    requires cut { IsCutIn job.now }
    requires pieces { pieces ≡ pieces_of job.now }
    requires piece { i < pieces }
    ensures { piece_shape result ≡ shape_at job.now i }
{
    let span = job.indexes(i);
    PieceTrace {
        number: i + 1,
        first: span.start,
        count: span.len,
        ran: notes.ran(notes.of(job.first.0.saturating_add(i))),
    }
}

/// All pieces of a job, in their order.
pub(crate) fn piece_traces(
    alloc: Global,
    notes: Notes<'_>,
    job: &JobPlan,
) -> Result<Vec<PieceTrace>, NoMemory>
    requires cut { IsCutIn job.now }
    ensures { IfOk result (λ traces. map piece_shape traces.items ≡ piece_shapes job.now 0 (pieces_of job.now)) }
{
    let pieces = job.pieces();
    let mut traces = Vec::with_capacity(alloc, pieces as usize)?;
    for i in 0..pieces {
        traces.push(piece_trace(notes, job, i, pieces))?;
    }
    Ok(traces)
}
