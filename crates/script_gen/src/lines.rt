// Each line, and lines one after another.
ghost use Rattle.std.specs.Prelude.{◌≡◌, ◌++◌, ◌∷◌, [], string_bytes, IfOk, OnOk};
ghost use Rattle.script_gen.specs.Lines.{array_line, writer_start, writer_end, writer_line, users_line, call_part, numbers_part, after_part, schedule_line, reader_line, written_line, used_line, sum_line};

use crate::mix::Mix;
use job_base::NoMemory;
use std::alloc::{AllocError, Global};

/// Appends a line and its line feed.
pub(crate) fn push_line(text: &mut Vec<u8>, line: &str) -> Result<(), NoMemory>
    ensures { OnOk result (text.new.items ≡ text.old.items ++ (line.now ++ 10 ∷ [])) }
{
    text.extend_from_slice(line.as_bytes())?;
    text.push(b'\n')?;
    Ok(())
}

#[tactic(auto, unfolding(crate::specs::Lines::array_line))]
pub(crate) fn array_line(alloc: Global, i: u32) -> Result<String, AllocError>
    ensures { IfOk result (λ line. string_bytes line ≡ array_line i) }
{
    format!(in alloc; "array a{i} 1024")
}

#[tactic(auto, unfolding(crate::specs::Lines::writer_start))]
fn writer_start(alloc: Global, i: u32) -> Result<String, AllocError>
    ensures { IfOk result (λ line. string_bytes line ≡ writer_start i) }
{
    format!(in alloc; "schedule w{i} start(a{i}, ")
}

#[tactic(auto, unfolding(crate::specs::Lines::writer_end))]
fn writer_end(alloc: Global, i: u32) -> Result<String, AllocError>
    ensures { IfOk result (λ line. string_bytes line ≡ writer_end i) }
{
    format!(in alloc; "{i}) 1024 64")
}

pub(crate) fn writer_line(alloc: Global, i: u32) -> Result<String, AllocError>
    ensures { IfOk result (λ line. string_bytes line ≡ writer_line i) }
{
    let mut line = writer_start(alloc, i)?;
    line.push_str(writer_end(alloc, i)?.as_str())?;
    Ok(line)
}

#[tactic(auto, unfolding(crate::specs::Lines::users_line))]
pub(crate) fn users_line(alloc: Global, i: u32) -> Result<String, AllocError>
    ensures { IfOk result (λ line. string_bytes line ≡ users_line i) }
{
    format!(in alloc; "combine u{i} w{i}")
}

#[tactic(auto, unfolding(crate::specs::Lines::call_part))]
fn call_part(alloc: Global, mix: &Mix) -> Result<String, AllocError>
    ensures { IfOk result (λ line. string_bytes line ≡ call_part mix.now) }
{
    let Mix {
        read: d,
        written: p,
        ..
    } = *mix;
    format!(in alloc; "schedule h mix(a{d}, a{p}, ")
}

#[tactic(auto, unfolding(crate::specs::Lines::numbers_part))]
fn numbers_part(alloc: Global, mix: &Mix) -> Result<String, AllocError>
    ensures { IfOk result (λ line. string_bytes line ≡ numbers_part mix.now) }
{
    let Mix { factor, batch, .. } = *mix;
    format!(in alloc; "{factor}) 1024 {batch}")
}

#[tactic(auto, unfolding(crate::specs::Lines::after_part))]
fn after_part(alloc: Global, mix: &Mix) -> Result<String, AllocError>
    ensures { IfOk result (λ line. string_bytes line ≡ after_part mix.now) }
{
    let Mix {
        read: d,
        written: p,
        ..
    } = *mix;
    format!(in alloc; " after w{d} u{p}")
}

pub(crate) fn schedule_line(alloc: Global, mix: &Mix) -> Result<String, AllocError>
    ensures { IfOk result (λ line. string_bytes line ≡ schedule_line mix.now) }
{
    let mut line = call_part(alloc, mix)?;
    line.push_str(numbers_part(alloc, mix)?.as_str())?;
    line.push_str(after_part(alloc, mix)?.as_str())?;
    Ok(line)
}

#[tactic(auto, unfolding(crate::specs::Lines::reader_line))]
pub(crate) fn reader_line(alloc: Global, mix: &Mix) -> Result<String, AllocError>
    ensures { IfOk result (λ line. string_bytes line ≡ reader_line mix.now) }
{
    let d = mix.read;
    format!(in alloc; "combine u{d} u{d} h")
}

#[tactic(auto, unfolding(crate::specs::Lines::written_line))]
pub(crate) fn written_line(alloc: Global, mix: &Mix) -> Result<String, AllocError>
    ensures { IfOk result (λ line. string_bytes line ≡ written_line mix.now) }
{
    let p = mix.written;
    format!(in alloc; "combine w{p} h")
}

#[tactic(auto, unfolding(crate::specs::Lines::used_line))]
pub(crate) fn used_line(alloc: Global, mix: &Mix) -> Result<String, AllocError>
    ensures { IfOk result (λ line. string_bytes line ≡ used_line mix.now) }
{
    let p = mix.written;
    format!(in alloc; "combine u{p} h")
}

#[tactic(auto, unfolding(crate::specs::Lines::sum_line))]
pub(crate) fn sum_line(alloc: Global, i: u32) -> Result<String, AllocError>
    ensures { IfOk result (λ line. string_bytes line ≡ sum_line i) }
{
    format!(in alloc; "schedule g fold(a{i}, t) after w{i} g")
}
