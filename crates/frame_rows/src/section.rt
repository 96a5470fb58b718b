// Scripts with the worked kernels, and their first sections.
ghost use Rattle.std.specs.Prelude.{IfOk};
ghost use Rattle.frame_ast.specs.Accepted.{IsAccepted};
ghost use Rattle.frame_core.specs.Ordered.{IsWellOrderedPlan};

use frame_plan::{Section, SectionBook, SmallJobs};
use frame_script::{Script, parse_script};
use job_base::FlatMem;
use job_base::limits::MOST_SCRIPT_BYTES;
use std::alloc::Global;
use std::test::Fail;
use table_in::Table;

/// The lines that a worked script begins with.
pub const KERNELS: &str = "parallel scale(x: ro array, y: wo array) { y[index] = x[index] * 3; }
job total(y: ro array, t: wo ref) { var s = 0; for k in 0..len(y) { s = s + y[k]; } t = s; }
job bump(a: rw array) { a[0] = a[0] + 1; }
job peek(a: ro array, t: wo ref) { t = a[0]; }
parallel shift(b: rw array) { b[index + 1] = b[index] + 1; }
job pair(a: ro array, b: rw array) { b[0] = a[0]; }
job both(a: ro array, b: ro array, t: wo ref) { t = a[0] + b[0]; }
parallel emit(s: wo stream) { begin s[index] { for k in 0..index % 4 { write(s, index); } } }
job slow(a: rw array) { var k = 0; while k < 300000 { k = k + 1; } a[0] = 1 / 0; }
job quick(a: rw array) { a[9] = 1; }
job keys(m: rw map, t: wo ref) { var r = 0; r = try_add(m, 1, 9); t = r; add(m, 3, 3); }
parallel push(l: rw list) { add(l, index); }
";

/// The script of a whole text.
pub fn script_in(alloc: Global, text: &str) -> Result<Script, Fail>
    ensures { IfOk result IsAccepted }
{
    let source = text.as_bytes();
    if source.len() > MOST_SCRIPT_BYTES as usize {
        return Err(Fail::new("the script is too long"));
    }
    Ok(parse_script(alloc, source)?)
}

/// The script that has the worked kernels and then these lines.
pub fn script_of(alloc: Global, lines: &str) -> Result<Script, Fail>
    ensures { IfOk result IsAccepted }
{
    let text = with_kernels(alloc, lines)?;
    script_in(alloc, text.as_str())
}

/// The worked kernels and then these lines.
pub fn with_kernels(alloc: Global, lines: &str) -> Result<String, Fail> {
    let mut text = String::from_str(alloc, KERNELS)?;
    text.push_str(lines)?;
    Ok(text)
}

/// The first section of the script of a whole text, with a table.
pub fn section_in(alloc: Global, text: &str, table: &Table) -> Result<Section, Fail>
    ensures { IfOk result (λ section. IsWellOrderedPlan section.plan) }
{
    let script = script_in(alloc, text)?;
    let mut cells = FlatMem::new(alloc, 0)?;
    let mut book = SectionBook::new(alloc, &script, table, SmallJobs::Cut)?;
    Ok(book.next(alloc, &script, table, None, &mut cells)?)
}

/// That of the script that has the worked kernels and then these lines.
pub fn section_with(alloc: Global, lines: &str, table: &Table) -> Result<Section, Fail>
    ensures { IfOk result (λ section. IsWellOrderedPlan section.plan) }
{
    let text = with_kernels(alloc, lines)?;
    section_in(alloc, text.as_str(), table)
}

/// The same with no table.
pub fn section_of(alloc: Global, lines: &str) -> Result<Section, Fail>
    ensures { IfOk result (λ section. IsWellOrderedPlan section.plan) }
{
    section_with(alloc, lines, &Table::none(alloc))
}
