// When something was.
ghost use Rattle.std.specs.Prelude.{◌≡◌, string_bytes, IfOk};
ghost use Rattle.trace_text.specs.Events.{time_text, stretch_text};

use crate::data::Stretch;
use std::alloc::{AllocError, Global};

/// Nanoseconds as microseconds, with three digits after the point.
#[tactic(auto, unfolding(crate::specs::Events::time_text))]
pub(crate) fn time_text(alloc: Global, time: u64) -> Result<String, AllocError>
    ensures { IfOk result (λ s. string_bytes s ≡ time_text time) }
{
    let whole = time / 1_000;
    let tenths = time / 100 % 10;
    let hundredths = time / 10 % 10;
    let thousandths = time % 10;
    format!(in alloc; "{whole}.{tenths}{hundredths}{thousandths}")
}

/// Where and when a slice is.
#[tactic(auto, unfolding(crate::specs::Events::stretch_text))]
pub(crate) fn stretch_text(alloc: Global, stretch: Stretch) -> Result<String, AllocError>
    ensures { IfOk result (λ s. string_bytes s ≡ stretch_text stretch) }
{
    let worker = stretch.worker;
    let from = time_text(alloc, stretch.from)?;
    let long = time_text(alloc, stretch.long)?;
    format!(in alloc; "\"ph\":\"X\",\"pid\":1,\"tid\":{worker},\"ts\":{from},\"dur\":{long}")
}
