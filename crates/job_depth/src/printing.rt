// The report as text.
ghost use Rattle.std.specs.Prelude.{◌≡◌, ◌≤◌, ◌++◌, [], codes, decimal, OnOk, OnErr};
ghost use Rattle.job_base.specs.Faults.{Rose};
ghost use Rattle.job_base.specs.Texts.{Writes};
ghost use Rattle.frame_print.specs.Gathering.{Gathers};
ghost use Rattle.job_depth.specs.Texts.{depth_text, numbers_text, jobs_text};

use crate::report::Depth;
use frame_print::Outgoing;
use itoa::Buffer;
use job_base::{JobId, Sink, SinkFault};

// Puts all before the jobs of the chain.
fn put_numbers<S: Sink>(depth: &Depth, out: &mut Outgoing, sink: &mut S) -> Result<(), SinkFault>
    ensures text { Gathers (S.taken sink.old) out.old (S.taken sink.new) out.new result (numbers_text depth.now) }
    ensures count { OnOk result (S.faults sink.new ≡ S.faults sink.old) }
    ensures cause { OnErr result (Rose (S.faults sink.old) (S.faults sink.new)) }
    ensures later { S.faults sink.old ≤ S.faults sink.new }
{
    let mut rounds = Buffer::new();
    let mut widest = Buffer::new();
    let mut workers = Buffer::new();
    let mut packed = Buffer::new();
    let mut least = Buffer::new();
    let parts = [
        b"rounds ",
        rounds.format(depth.rounds).as_bytes(),
        b"\nwidest ",
        widest.format(depth.widest).as_bytes(),
        b"\nworkers ",
        workers.format(depth.workers).as_bytes(),
        b": ",
        packed.format(depth.packed).as_bytes(),
        b" rounds, at least ",
        least.format(depth.least).as_bytes(),
        b"\nchain",
    ];
    out.put_all(&parts, sink)
}

// Puts a job of the chain.
fn put_job<S: Sink>(id: JobId, out: &mut Outgoing, sink: &mut S) -> Result<(), SinkFault>
    ensures text { Gathers (S.taken sink.old) out.old (S.taken sink.new) out.new result (codes " " ++ decimal id.0) }
    ensures count { OnOk result (S.faults sink.new ≡ S.faults sink.old) }
    ensures cause { OnErr result (Rose (S.faults sink.old) (S.faults sink.new)) }
    ensures later { S.faults sink.old ≤ S.faults sink.new }
{
    let mut digits = Buffer::new();
    let parts = [b" ", digits.format(id.0).as_bytes()];
    out.put_all(&parts, sink)
}

fn put_jobs<S: Sink>(jobs: &[JobId], out: &mut Outgoing, sink: &mut S) -> Result<(), SinkFault>
    ensures text { Gathers (S.taken sink.old) out.old (S.taken sink.new) out.new result (jobs_text jobs.now) }
    ensures count { OnOk result (S.faults sink.new ≡ S.faults sink.old) }
    ensures cause { OnErr result (Rose (S.faults sink.old) (S.faults sink.new)) }
    ensures later { S.faults sink.old ≤ S.faults sink.new }
{
    for id in jobs {
        put_job(*id, out, sink)?;
    }
    Ok(())
}

/// Writes the report as four lines after what waits: `rounds`, `widest`, what the workers take, and the chain. Nothing
/// waits then. It takes no memory.
pub fn print_depth<S: Sink>(
    depth: &Depth,
    out: &mut Outgoing,
    sink: &mut S,
) -> Result<(), SinkFault>
    ensures text { Writes (S.taken sink.old) (S.taken sink.new) result (out.old ++ depth_text depth.now) }
    ensures none { OnOk result (out.new ≡ []) }
    ensures count { OnOk result (S.faults sink.new ≡ S.faults sink.old) }
    ensures cause { OnErr result (Rose (S.faults sink.old) (S.faults sink.new)) }
    ensures later { S.faults sink.old ≤ S.faults sink.new }
{
    put_numbers(depth, out, sink)?;
    put_jobs(&depth.chain, out, sink)?;
    out.put(b"\n", sink)?;
    out.flush(sink)
}
