//! Why a schedule is refused, in the words of the line that a run prints.
ghost use Rattle.std.specs.Prelude.{◌≡◌, IfOk, string_bytes};
ghost use Rattle.frame_ast.specs.Texts.{refusal_text};

use job_base::Refusal;
use std::alloc::{AllocError, Global};

/// The text of a refusal that names `name`.
pub(crate) fn cause_text(alloc: Global, refusal: Refusal, name: &str) -> Result<String, AllocError>
    ensures { IfOk result (λ s. string_bytes s ≡ refusal_text refusal name.now) }
{
    match refusal {
        Refusal::Disposed => format!(in alloc; "disposed {name}"),
        Refusal::StaleView => format!(in alloc; "stale view {name}"),
        Refusal::NotParallel => format!(in alloc; "not parallel {name}"),
        Refusal::Alias => format!(in alloc; "alias {name}"),
        Refusal::Pending(job) => {
            let number = job.0;
            let mut text = format!(in alloc; "pending job {number}")?;
            text.push_str(" on ")?;
            text.push_str(name)?;
            Ok(text)
        }
        Refusal::StoreFull => String::from_str(alloc, "store full"),
        Refusal::Range => String::from_str(alloc, "range"),
        Refusal::Full => String::from_str(alloc, "full"),
        Refusal::MissingKey => String::from_str(alloc, "missing key"),
        Refusal::PresentKey => String::from_str(alloc, "present key"),
        Refusal::TempInJob => format!(in alloc; "temp {name}"),
        Refusal::Busy(job) => {
            let number = job.0;
            format!(in alloc; "busy job {number}")
        }
    }
}
