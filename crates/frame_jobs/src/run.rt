// A script that is run whole.
ghost use Rattle.std.specs.Prelude.{◌≡◌, ◌≢◌, ◌<◌, ◌≤◌, length, None, Some, false};
ghost use Rattle.frame_ast.specs.declared.script.Script.{Script};
ghost use Rattle.frame_ast.specs.Scripts.{output_of, status_of};
ghost use Rattle.frame_top.specs.Inputs.{Accepts};
ghost use Rattle.frame_top.specs.Refusals.{Answer, Refuses, answer, frame_refusal, table_of, table_refusal};
ghost use Rattle.frame_top.specs.Sources.{IsAcceptedFrame};
ghost use Rattle.frame_top.specs.declared.status.TheConstants.{UNWRITTEN};
ghost use Rattle.frame_calls.specs.Calls.{Fills, given};

use std::alloc::Global;

/// Runs the script of these bytes, with the table of those bytes where it has one. The answer is the status of
/// `frame_run` for files with these bytes, and the first `out_len` bytes of `out` are what it prints; 7 where that is
/// longer than `out`, and then `out` has its first bytes; 8 where memory was not found.
#[unsafe(no_mangle)]
pub extern "C" fn frame_jobs_run(
    alloc: Global,
    script: &[u8],
    has_table: bool,
    table: &[u8],
    out: &mut [u8],
    out_len: &mut usize,
) -> u8
    // THE HEADLINE. Where script and table are accepted, the status and the bytes are those of the script's meaning.
    ensures headline { (tree : Script) → IsAcceptedFrame script.now (given has_table table.now) tree
        → Fills out.new out_len.new (answer (status_of tree (table_of (given has_table table.now)))
        (output_of tree (table_of (given has_table table.now)))) result }

    // Else they are those of the first refusal.
    ensures script_due { (a : Answer) → Refuses script.now a → Fills out.new out_len.new a result }
    ensures table_due { (tree : Script) (a : Answer) → Accepts script.now tree
        → table_refusal (given has_table table.now) ≡ Some a → Fills out.new out_len.new a result }
    ensures frame_due { (tree : Script) (a : Answer) → Accepts script.now tree
        → table_refusal (given has_table table.now) ≡ None
        → frame_refusal tree (table_of (given has_table table.now)) false ≡ Some a
        → Fills out.new out_len.new a result }

    // 7 comes exactly where the text is longer than the buffer.
    ensures longer { result ≡ UNWRITTEN → length out.new < out_len.new }
    ensures within { result ≢ UNWRITTEN → out_len.new ≤ length out.new }
    ensures room { length out.new ≡ length out.old }
{
    frame_calls::run_script(alloc, script, has_table, table, out, out_len)
}
