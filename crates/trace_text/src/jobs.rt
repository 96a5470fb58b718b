// The events of jobs.
ghost use Rattle.std.specs.Prelude.{◌≡◌, string_bytes, IfOk};
ghost use Rattle.trace_text.specs.Events.{known_line, job_args, piece_args, piece_text};
ghost use Rattle.trace_text.specs.Traces.{pieces_text, jobs_text};

use crate::data::{JobTrace, PieceTrace};
use crate::times::stretch_text;
use std::alloc::{AllocError, Global};

// The line of a schedule, where it is known.
fn known_line(alloc: Global, line: Option<u32>) -> Result<String, AllocError>
    ensures { IfOk result (λ s. string_bytes s ≡ known_line line) }
{
    match line {
        Some(line) => format!(in alloc; "{line}"),
        None => String::from_str(alloc, "null"),
    }
}

// Which job it is, after so many of earlier sections.
#[tactic(auto, unfolding(crate::specs::Events::job_args))]
fn job_args(alloc: Global, before: u32, job: &JobTrace) -> Result<String, AllocError>
    ensures { IfOk result (λ s. string_bytes s ≡ job_args before job.now) }
{
    let number = u64::from(before) + u64::from(job.number);
    let line = known_line(alloc, job.line)?;
    format!(in alloc; "\"job\":{number},\"line\":{line}")
}

// Which of its pieces it is.
#[tactic(auto, unfolding(crate::specs::Events::piece_args))]
fn piece_args(alloc: Global, pieces: usize, piece: PieceTrace) -> Result<String, AllocError>
    ensures { IfOk result (λ s. string_bytes s ≡ piece_args pieces piece) }
{
    let number = piece.number;
    let first = piece.first;
    let count = piece.count;
    format!(in alloc; "\"piece\":{number},\"pieces\":{pieces},\"first\":{first},\"count\":{count}")
}

// The event of a piece of a job.
fn piece_text(
    alloc: Global,
    before: u32,
    job: &JobTrace,
    piece: PieceTrace,
) -> Result<String, AllocError>
    ensures { IfOk result (λ s. string_bytes s ≡ piece_text before job.now piece) }
{
    let kernel = job.kernel.as_str();
    let when = stretch_text(alloc, piece.ran)?;
    let which = job_args(alloc, before, job)?;
    let part = piece_args(alloc, job.pieces.len(), piece)?;
    format!(in alloc;
        ",\n{{\"name\":\"{kernel}\",\"cat\":\"job\",{when},\"args\":{{{which},{part}}}}}"
    )
}

// The events of some pieces of a job.
fn pieces_text(
    alloc: Global,
    before: u32,
    job: &JobTrace,
    pieces: &[PieceTrace],
) -> Result<String, AllocError>
    ensures { IfOk result (λ s. string_bytes s ≡ pieces_text before job.now pieces.now) }
{
    let mut text = String::new(alloc);
    for piece in pieces {
        let part = piece_text(alloc, before, job, *piece)?;
        text.push_str(part.as_str())?;
    }
    Ok(text)
}

/// The events of all jobs of a section, before which there were so many.
pub(crate) fn jobs_text(alloc: Global, before: u32, jobs: &[JobTrace]) -> Result<String, AllocError>
    ensures { IfOk result (λ s. string_bytes s ≡ jobs_text before jobs.now) }
{
    let mut text = String::new(alloc);
    for job in jobs {
        let part = pieces_text(alloc, before, job, &job.pieces)?;
        text.push_str(part.as_str())?;
    }
    Ok(text)
}
