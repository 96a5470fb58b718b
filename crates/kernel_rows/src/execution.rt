// Executions over flat memory.
ghost use Rattle.std.specs.Prelude.{◌≡◌, ◌<◌, ◌+◌, ◌^◌, length, is_some};
ghost use Rattle.job_base.specs.Cells.{cells_of};
ghost use Rattle.frame_ast.specs.Checked.{IsChecked};
ghost use Rattle.frame_ast.specs.JobRuns.{full_steps};
ghost use Rattle.frame_ast.specs.Kernels.{store_after, trap_after};
ghost use Rattle.kernel_bytecode.specs.Codes.{IsCodeOf};
ghost use Rattle.kernel_exec.specs.Conditions.{BindsFit};
ghost use Rattle.kernel_exec.specs.Laws.{at_index, at_indexes};
ghost use Rattle.kernel_exec.specs.Notes.{IsNoteOf};
ghost use Rattle.kernel_exec.specs.Runs.{index_of, trap_of};
ghost use Rattle.kernel_rows.specs.Standing.{AreBelow};

use frame_ast::kernel::Kernel;
use job_base::{FlatMem, Span, Trap};
use kernel_bytecode::Code;
use kernel_exec::{Bind, Notes};
use kernel_machine::{Scratch, execute, execute_indexes};

/// Runs a kernel's code at an index, or once, on binds that stand in the memory.
pub fn run(
    kernel: &Kernel,
    code: &Code,
    binds: &[Bind],
    index: Option<u32>,
    scratch: &mut Scratch,
    mem: &mut FlatMem,
) -> Result<(), Trap>
    requires checked { IsChecked kernel.now }
    requires code { IsCodeOf kernel.now code.now }
    requires fit { BindsFit kernel.now binds.now }
    requires index { is_some index ≡ kernel.now.parallel }
    requires below { AreBelow binds.now (length mem.old) }

    ensures trap { trap_of result
        ≡ trap_after (at_index kernel.now binds.now full_steps (index_of index) (cells_of mem.old)) }
    ensures cells { cells_of mem.new
        ≡ store_after (at_index kernel.now binds.now full_steps (index_of index) (cells_of mem.old)) }
    ensures length { length mem.new ≡ length mem.old }
{
    execute(kernel, code, binds, index, scratch, mem)
}

/// Runs a kernel's code at indexes that follow one another, on binds that stand in the memory.
pub fn run_indexes(
    kernel: &Kernel,
    code: &Code,
    binds: &[Bind],
    span: &Span,
    scratch: &mut Scratch,
    mem: &mut FlatMem,
) -> Notes
    requires checked { IsChecked kernel.now }
    requires code { IsCodeOf kernel.now code.now }
    requires fit { BindsFit kernel.now binds.now }
    requires few { span.now.start + span.now.len < 2 ^ 32 }
    requires below { AreBelow binds.now (length mem.old) }

    ensures cells { cells_of mem.new
        ≡ (at_indexes kernel.now binds.now full_steps span.now.len span.now.start (cells_of mem.old)).store }
    ensures note { IsNoteOf
        (at_indexes kernel.now binds.now full_steps span.now.len span.now.start (cells_of mem.old)).traps result }
    ensures length { length mem.new ≡ length mem.old }
{
    execute_indexes(kernel, code, binds, span, scratch, mem)
}
