// The events of arrows.
ghost use Rattle.std.specs.Prelude.{◌≡◌, string_bytes, IfOk};
ghost use Rattle.trace_text.specs.Events.{end_text, arrow_text};
ghost use Rattle.trace_text.specs.Traces.{arrows_text};

use crate::data::{ArrowTrace, End};
use crate::times::time_text;
use std::alloc::{AllocError, Global};

// Where and when an arrow begins or ends.
#[tactic(auto, unfolding(crate::specs::Events::end_text))]
fn end_text(alloc: Global, number: u32, end: End) -> Result<String, AllocError>
    ensures { IfOk result (λ s. string_bytes s ≡ end_text number end) }
{
    let worker = end.worker;
    let at = time_text(alloc, end.at)?;
    format!(in alloc; "\"id\":{number},\"pid\":1,\"tid\":{worker},\"ts\":{at}")
}

// The two events of an arrow.
fn arrow_text(alloc: Global, arrow: ArrowTrace) -> Result<String, AllocError>
    ensures { IfOk result (λ s. string_bytes s ≡ arrow_text arrow) }
{
    let from = end_text(alloc, arrow.number, arrow.from)?;
    let to = end_text(alloc, arrow.number, arrow.to)?;
    format!(in alloc;
        ",\n{{\"name\":\"waits\",\"cat\":\"waits\",\"ph\":\"s\",{from}}},\n{{\"name\":\"waits\",\"cat\":\"waits\",\
         \"ph\":\"f\",\"bp\":\"e\",{to}}}"
    )
}

/// The events of arrows.
pub(crate) fn arrows_text(alloc: Global, arrows: &[ArrowTrace]) -> Result<String, AllocError>
    ensures { IfOk result (λ s. string_bytes s ≡ arrows_text arrows.now) }
{
    let mut text = String::new(alloc);
    for arrow in arrows {
        let part = arrow_text(alloc, *arrow)?;
        text.push_str(part.as_str())?;
    }
    Ok(text)
}
