// The call, whose text goes straight into the caller's buffer.
ghost use Rattle.std.specs.Prelude.{◌≡◌, ◌≢◌, ◌<◌, ◌≤◌, length, option_copied, None, Some, false};
ghost use Rattle.frame_ast.specs.declared.script.Script.{Script};
ghost use Rattle.frame_ast.specs.Scripts.{output_of, status_of};
ghost use Rattle.command_words.specs.Words.{Text};
ghost use Rattle.frame_top.specs.Inputs.{Accepts};
ghost use Rattle.frame_top.specs.Refusals.{Answer, Refuses, answer, frame_refusal, table_of, table_refusal};
ghost use Rattle.frame_top.specs.Sources.{IsAcceptedFrame};
ghost use Rattle.frame_top.specs.declared.status.TheConstants.{NO_MEMORY, UNWRITTEN};
ghost use Rattle.frame_calls.specs.Calls.{Comes, Fills, given};
ghost use Rattle.frame_calls.specs.Filled.{IsFilled};

use crate::buffer::BufferSink;
use frame_top::run_source;
use frame_top::status::{NO_MEMORY, UNWRITTEN};
use std::alloc::Global;

// The bytes of the table, where there is one.
fn given_table(has_table: bool, table: &[u8]) -> Option<&[u8]>
    ensures { option_copied result ≡ given has_table table.now }
{
    if has_table { Some(table) } else { None }
}

// The status of a run whose text, of `len` bytes, was written into a buffer of `room` bytes; another one where the
// buffer has no room for the text, or memory wasn't found for the whole run.
fn status_of_text(status: u8, len: usize, room: usize, out_len: &mut usize) -> u8
    ensures fills { (a : Answer) (out text : Text) → length out ≡ room → IsFilled out text len → Comes status text a
        → Fills out out_len.new a result }
    ensures longer { result ≡ UNWRITTEN → room < out_len.new }
    ensures within { result ≢ UNWRITTEN → out_len.new ≤ room }
{
    if status == UNWRITTEN || status == NO_MEMORY {
        *out_len = 0;
        return NO_MEMORY;
    }
    *out_len = len;
    if len > room {
        return UNWRITTEN;
    }
    status
}

/// Runs the script of these bytes, with the table of those bytes where it has one. The answer is the status of
/// `frame_run` for files with these bytes, and the first `out_len` bytes of `out` are what it prints; 7 where that is
/// longer than `out`, and then `out` has its first bytes; 8 where memory was not found.
pub fn run_script(
    alloc: Global,
    script: &[u8],
    has_table: bool,
    table: &[u8],
    out: &mut [u8],
    out_len: &mut usize,
) -> u8
    // THE HEADLINE. Where script and table are accepted, the status and the bytes are those of the script's meaning.
    ensures headline { (tree : Script) → IsAcceptedFrame script.now (given has_table table.now) tree
        → Fills out.new out_len.new (answer (status_of tree (table_of (given has_table table.now)))
        (output_of tree (table_of (given has_table table.now)))) result }

    // Else they are those of the first refusal.
    ensures script_due { (a : Answer) → Refuses script.now a → Fills out.new out_len.new a result }
    ensures table_due { (tree : Script) (a : Answer) → Accepts script.now tree
        → table_refusal (given has_table table.now) ≡ Some a → Fills out.new out_len.new a result }
    ensures frame_due { (tree : Script) (a : Answer) → Accepts script.now tree
        → table_refusal (given has_table table.now) ≡ None
        → frame_refusal tree (table_of (given has_table table.now)) false ≡ Some a
        → Fills out.new out_len.new a result }

    // 7 comes exactly where the text is longer than the buffer.
    ensures longer { result ≡ UNWRITTEN → length out.new < out_len.new }
    ensures within { result ≢ UNWRITTEN → out_len.new ≤ length out.new }
    ensures room { length out.new ≡ length out.old }
{
    let room = out.len();
    let mut sink = BufferSink::over(out);
    let status = run_source(alloc, script, given_table(has_table, table), &mut sink);
    status_of_text(status, sink.len, room, out_len)
}
