// The longest chain of jobs.
ghost use Rattle.std.specs.Prelude.{◌≡◌};
ghost use Rattle.frame_core.specs.Names.{has_job};
ghost use Rattle.frame_view.specs.Boxes.{kind_by};
ghost use Rattle.frame_view.specs.Arrows.{is_step};

use job_base::JobId;
use view_text::Kind;

pub(crate) fn is_among(jobs: &[JobId], wanted: JobId) -> bool
    ensures { result ≡ has_job jobs.now wanted.0 }
{
    for id in jobs {
        if id.0 == wanted.0 {
            return true;
        }
    }
    false
}

/// What a job's box is.
pub(crate) fn kind_of(chain: &[JobId], id: JobId) -> Kind
    ensures { result ≡ kind_by (has_job chain.now id.0) }
{
    if is_among(chain, id) {
        Kind::Chain
    } else {
        Kind::Job
    }
}

/// Whether one job stands right before another one in the chain.
pub(crate) fn is_step(chain: &[JobId], earlier: JobId, later: JobId) -> bool
    ensures { result ≡ is_step 0 chain.now earlier.0 later.0 }
{
    let mut before = 0;
    for id in chain {
        if before == earlier.0 && id.0 == later.0 {
            return true;
        }
        before = id.0;
    }
    false
}
