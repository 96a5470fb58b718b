// Why a use is blocked, as the refusal of a statement.
ghost use Rattle.std.specs.Prelude.{◌≡◌, Some};
ghost use Rattle.plan_state.specs.Accesses.{cause_of};

use job_base::Refusal;
use safety_handle::Blocked;

/// The refusal for which a use is blocked.
pub fn refusal_of_blocked(blocked: Blocked) -> Refusal
    ensures { Some result ≡ cause_of (Some blocked) }
{
    match blocked {
        Blocked::Disposed => Refusal::Disposed,
        Blocked::StaleView => Refusal::StaleView,
        Blocked::Pending(job) => Refusal::Pending(job),
    }
}
