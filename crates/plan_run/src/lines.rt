// The operations of a segment, and the lines that they say.
ghost use Rattle.std.specs.Prelude.{◌≡◌, ◌≤◌, ◌<◌, ◌+◌, ◌^◌, All, OnOk, OnErr};
ghost use Rattle.job_base.specs.Faults.{Rose};
ghost use Rattle.frame_print.specs.Gathering.{Gathers};
ghost use Rattle.frame_core.specs.Touches.{act_touches, ops_touch};
ghost use Rattle.frame_core.specs.Operations.{op_cells, op_answer, ops_cells, ops_refused, one_if_refused};
ghost use Rattle.frame_core.specs.Names.{name_of};
ghost use Rattle.frame_core.specs.Output.{op_line, ops_lines};
ghost use Rattle.frame_core.specs.Ordered.{IsSized, OpFits, ActStands, OpsStand};
ghost use Rattle.frame_core.specs.Rights.{MayReadIn, MayWriteIn};
ghost use Rattle.plan_run.specs.Lines.{MayPrint, one_if, said_line};
ghost use Rattle.plan_run.specs.Says.{SaysTo};

use frame_core::{Act, Op, Plan, apply_op};
use frame_print::Outgoing;
use job_base::{Mem, Refusal, Sink, SinkFault};

// The bytes of the name that an operation speaks of.
fn name_of<'a>(plan: &'a Plan, op: &Op) -> &'a [u8]
    ensures { result.now ≡ name_of plan.now op.now.name }
{
    match plan.names.get(op.name as usize) {
        Some(name) => name.as_bytes(),
        None => &[],
    }
}

// Puts the line of an operation that was answered so, if it has one.
fn put_line<M: Mem, S: Sink>(
    plan: &Plan,
    op: &Op,
    answer: Option<Refusal>,
    mem: &mut M,
    out: &mut Outgoing,
    sink: &mut S,
) -> Result<(), SinkFault>
    requires sized { IsSized plan.now }
    requires fits { OpFits plan.now op.now }
    requires readable { MayReadIn (act_touches op.now.act) (M.readable mem.old) }
    requires stands { MayPrint op.now.act (M.cells mem.old) }
    ensures text { Gathers (S.taken sink.old) out.old (S.taken sink.new) out.new result
        (said_line plan.now op.now (M.cells mem.old) answer) }
    ensures count { OnOk result (S.faults sink.new ≡ S.faults sink.old) }
    ensures cause { OnErr result (Rose (S.faults sink.old) (S.faults sink.new)) }
    ensures later { S.faults sink.old ≤ S.faults sink.new }
    ensures cells { M.cells mem.new ≡ M.cells mem.old }
    ensures readable { M.readable mem.new ≡ M.readable mem.old }
    ensures writable { M.writable mem.new ≡ M.writable mem.old }
{
    if let Some(refusal) = answer {
        return out.put_refusal(op.line, refusal, name_of(plan, op), sink);
    }
    match &op.act {
        Act::Print { at } => out.put_container(name_of(plan, op), at, mem, sink),
        Act::Report { made } => out.put_overdue(op.line, name_of(plan, op), *made, sink),
        Act::Fill { .. }
        | Act::Move { .. }
        | Act::Say { .. }
        | Act::Set { .. }
        | Act::AddTo { .. }
        | Act::Put { .. }
        | Act::Remove { .. }
        | Act::Clear { .. } => Ok(()),
    }
}

// The same, unless a write failed before.
fn say_line<M: Mem, S: Sink>(
    plan: &Plan,
    op: &Op,
    answer: Option<Refusal>,
    mem: &mut M,
    out: &mut Outgoing,
    sink: &mut S,
    failed: &mut bool,
)
    requires sized { IsSized plan.now }
    requires fits { OpFits plan.now op.now }
    requires readable { MayReadIn (act_touches op.now.act) (M.readable mem.old) }
    requires stands { MayPrint op.now.act (M.cells mem.old) }
    ensures text { SaysTo S.taken S.faults sink.old out.old failed.old sink.new out.new failed.new
        (said_line plan.now op.now (M.cells mem.old) answer) }
    ensures later { S.faults sink.old ≤ S.faults sink.new }
    ensures cells { M.cells mem.new ≡ M.cells mem.old }
    ensures readable { M.readable mem.new ≡ M.readable mem.old }
    ensures writable { M.writable mem.new ≡ M.writable mem.old }
{
    if *failed {
        return;
    }
    match put_line(plan, op, answer, mem, out, sink) {
        Ok(()) => {}
        Err(SinkFault) => *failed = true,
    }
}

// Runs an operation and says its line. The answer says whether it is refused.
fn run_op<M: Mem, S: Sink>(
    plan: &Plan,
    op: &Op,
    mem: &mut M,
    out: &mut Outgoing,
    sink: &mut S,
    failed: &mut bool,
) -> bool
    requires sized { IsSized plan.now }
    requires fits { OpFits plan.now op.now }
    requires readable { MayReadIn (act_touches op.now.act) (M.readable mem.old) }
    requires writable { MayWriteIn (act_touches op.now.act) (M.writable mem.old) }
    requires stands { ActStands op.now.act (M.cells mem.old) }
    ensures refused { one_if result ≡ one_if_refused (op_answer plan.now op.now (M.cells mem.old)) }
    ensures text { SaysTo S.taken S.faults sink.old out.old failed.old sink.new out.new failed.new
        (op_line plan.now op.now (M.cells mem.old)) }
    ensures later { S.faults sink.old ≤ S.faults sink.new }
    ensures cells { M.cells mem.new ≡ op_cells plan.now op.now (M.cells mem.old) }
    ensures readable { M.readable mem.new ≡ M.readable mem.old }
    ensures writable { M.writable mem.new ≡ M.writable mem.old }
{
    let answer = apply_op(plan, op, mem);
    say_line(plan, op, answer, mem, out, sink, failed);
    answer.is_some()
}

/// Runs operations one after another, says their lines, and counts those that are refused.
pub fn run_ops<M: Mem, S: Sink>(
    plan: &Plan,
    ops: &[Op],
    mem: &mut M,
    out: &mut Outgoing,
    sink: &mut S,
    failed: &mut bool,
    refused: &mut u64,
)
    requires sized { IsSized plan.now }
    requires fits { All (OpFits plan.now) ops.now }
    requires readable { MayReadIn (ops_touch ops.now) (M.readable mem.old) }
    requires writable { MayWriteIn (ops_touch ops.now) (M.writable mem.old) }
    requires stands { OpsStand plan.now ops.now (M.cells mem.old) }
    requires few { refused.old + ops_refused plan.now ops.now (M.cells mem.old) < 2 ^ 64 }
    ensures text { SaysTo S.taken S.faults sink.old out.old failed.old sink.new out.new failed.new
        (ops_lines plan.now ops.now (M.cells mem.old)) }
    ensures later { S.faults sink.old ≤ S.faults sink.new }
    ensures refused { refused.new ≡ refused.old + ops_refused plan.now ops.now (M.cells mem.old) }
    ensures cells { M.cells mem.new ≡ ops_cells plan.now ops.now (M.cells mem.old) }
    ensures readable { M.readable mem.new ≡ M.readable mem.old }
    ensures writable { M.writable mem.new ≡ M.writable mem.old }
{
    let mut rest = ops;
    while let Some((op, tail)) = rest.split_first() {
        if run_op(plan, op, mem, out, sink, failed) {
            *refused += 1;
        }
        rest = tail;
    }
}
