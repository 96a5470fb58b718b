// The line of a file that is no script.
ghost use Rattle.std.specs.Prelude.{◌≡◌, ◌≤◌, OnOk, OnErr};
ghost use Rattle.job_base.specs.Faults.{Rose};
ghost use Rattle.job_base.specs.Texts.{Writes};
ghost use Rattle.frame_ast.specs.Answers.{fault_text, script_refused_line};

use crate::texts::print_parts;
use frame_ast::kernel::FaultKind;
use itoa::Buffer;
use job_base::{Sink, SinkFault};

// What a fault is called.
fn fault_words(kind: FaultKind) -> &'static [u8]
    ensures { result.now ≡ fault_text kind }
{
    match kind {
        FaultKind::Syntax => b"syntax",
        FaultKind::UnknownName => b"unknown name",
        FaultKind::DuplicateName => b"duplicate name",
        FaultKind::KindMismatch => b"kind mismatch",
        FaultKind::ReadOfWriteOnly => b"read of write-only",
        FaultKind::WriteOfReadOnly => b"write of read-only",
        FaultKind::Limit => b"limit",
        FaultKind::TooLong => b"limit",
    }
}

/// Writes where and for what a file is refused. That it has too many statements is another line.
pub fn print_script_refusal<S: Sink>(
    line: u32,
    kind: FaultKind,
    sink: &mut S,
) -> Result<(), SinkFault>
    ensures text { Writes (S.taken sink.old) (S.taken sink.new) result (script_refused_line line kind) }
    ensures count { OnOk result (S.faults sink.new ≡ S.faults sink.old) }
    ensures cause { OnErr result (Rose (S.faults sink.old) (S.faults sink.new)) }
    ensures later { S.faults sink.old ≤ S.faults sink.new }
{
    let mut digits = Buffer::new();
    let line_text = digits.format(line).as_bytes();
    let parts = [
        b"script refused line ",
        line_text,
        b": ",
        fault_words(kind),
        b"\n",
    ];
    print_parts(&parts, sink)
}
