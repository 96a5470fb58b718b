// The whole script, part by part.
ghost use Rattle.std.specs.Prelude.{◌≡◌, ◌≤◌, ◌<◌, ◌++◌, IfOk, OnOk};
ghost use Rattle.script_gen.specs.Draws.{mix_after, after_mix};
ghost use Rattle.job_base.specs.declared.limits.TheConstants.{MOST_SEED, MOST_GENERATED_JOBS};
ghost use Rattle.script_gen.specs.Lines.{array_lines, mix_lines, mixes, sum_lines, for_each};
ghost use Rattle.script_gen.specs.Scripts.{kernel_lines, total_lines, last_lines, text_of, script_text};

use crate::draws::Draws;
use crate::lines::{
    array_line, push_line, reader_line, schedule_line, sum_line, used_line, users_line,
    writer_line, written_line,
};
use job_base::NoMemory;
use job_base::limits::{MOST_GENERATED_JOBS, MOST_SEED};
use std::alloc::Global;

// The three kernels.
fn push_kernels(text: &mut Vec<u8>) -> Result<(), NoMemory>
    ensures { OnOk result (text.new.items ≡ text.old.items ++ text_of kernel_lines) }
{
    push_line(
        text,
        "parallel start(y: wo array, c: int) { y[index] = (index * 7 + c) % 1000000; }",
    )?;
    push_line(
        text,
        "parallel mix(x: ro array, y: rw array, c: int) { y[index] = (y[index] + x[index] * c) % 1000000; }",
    )?;
    push_line(
        text,
        "job fold(x: ro array, t: rw ref) { var s = t; for k in 0..len(x) { s = (s + x[k]) % 1000000; } t = s; }",
    )?;
    Ok(())
}

fn push_array(alloc: Global, text: &mut Vec<u8>, i: u32) -> Result<(), NoMemory>
    ensures { OnOk result (text.new.items ≡ text.old.items ++ text_of (array_lines i)) }
{
    push_line(text, array_line(alloc, i)?.as_str())?;
    push_line(text, writer_line(alloc, i)?.as_str())?;
    push_line(text, users_line(alloc, i)?.as_str())?;
    Ok(())
}

fn push_arrays(alloc: Global, text: &mut Vec<u8>) -> Result<(), NoMemory>
    ensures { OnOk result (text.new.items ≡ text.old.items ++ text_of (for_each array_lines 0 8)) }
{
    for i in 0..8 {
        push_array(alloc, text, i)?;
    }
    Ok(())
}

fn push_mix(alloc: Global, text: &mut Vec<u8>, draws: &mut Draws) -> Result<(), NoMemory>
    ensures text { OnOk result (text.new.items ≡ text.old.items ++ text_of (mix_lines (mix_after draws.old.number))) }
    ensures draws { OnOk result (draws.new.number ≡ after_mix draws.old.number) }
{
    let mix = draws.mix();
    push_line(text, schedule_line(alloc, &mix)?.as_str())?;
    push_line(text, reader_line(alloc, &mix)?.as_str())?;
    push_line(text, written_line(alloc, &mix)?.as_str())?;
    push_line(text, used_line(alloc, &mix)?.as_str())?;
    Ok(())
}

fn push_mixes(alloc: Global, text: &mut Vec<u8>, number: u32, jobs: u32) -> Result<(), NoMemory>
    requires { number ≤ MOST_SEED }
    ensures { OnOk result (text.new.items ≡ text.old.items ++ text_of (mixes number jobs)) }
{
    let mut draws = Draws::from(number);
    for k in 0..jobs {
        push_mix(alloc, text, &mut draws)?;
    }
    Ok(())
}

fn push_sums(alloc: Global, text: &mut Vec<u8>) -> Result<(), NoMemory>
    ensures { OnOk result (text.new.items ≡ text.old.items ++ text_of (for_each sum_lines 0 8)) }
{
    for i in 0..8 {
        push_line(text, sum_line(alloc, i)?.as_str())?;
    }
    Ok(())
}

/// Makes the script of a number, 0 to [`MOST_SEED`], and so many mixing jobs, 1 to [`MOST_GENERATED_JOBS`]. With its
/// sixteen other jobs it stays within the jobs that a script may have.
pub fn gen_script(alloc: Global, number: u32, jobs: u32) -> Result<Vec<u8>, NoMemory>
    requires number { number ≤ MOST_SEED }
    requires jobs { (1 ≤ jobs) × (jobs ≤ MOST_GENERATED_JOBS) }
    ensures { IfOk result (λ text. text.items ≡ script_text number jobs) }
{
    let mut text = Vec::new(alloc);
    push_kernels(&mut text)?;
    push_arrays(alloc, &mut text)?;
    push_line(&mut text, "reference t")?;
    push_line(&mut text, "combine g")?;
    push_mixes(alloc, &mut text, number, jobs)?;
    push_sums(alloc, &mut text)?;
    push_line(&mut text, "complete g")?;
    push_line(&mut text, "print t")?;
    Ok(text)
}
