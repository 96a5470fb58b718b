// What the containers of a script hold at its end, as numbers.
ghost use Rattle.std.specs.Prelude.{◌≡◌, ◌+◌, ◌≤◌, ℕ, length, option_copied};
ghost use Rattle.job_base.specs.Cells.{cell_list, cells_of};
ghost use Rattle.frame_ast.specs.Contents.{Contents};
ghost use Rattle.kernel_exec.specs.Binds.{end_of};
ghost use Rattle.kernel_exec.specs.Layout.{Holds};
ghost use Rattle.plan_laws.specs.Binds.{bind_of};
ghost use Rattle.frame_host.specs.Frames.{IsAnswer, answered_table, answered_tree};
ghost use Rattle.frame_host.specs.Reading.{numbers_named, numbers_of, place_from};

use crate::answer::FrameAnswer;
use frame_ast::script::Script;
use kernel_exec::Bind;

impl FrameAnswer {
    /// What the container of a name holds at the script's end: of an array or a list its elements, of a reference its
    /// value. None of a name that stands for none of these then, of a map and of a stream, whose contents are more than
    /// one row of numbers, and of a name that the script doesn't have.
    pub fn numbers(&self, name: &[u8]) -> Option<&[i64]>
        requires sound { IsAnswer self.now }
        ensures { option_copied result
            ≡ numbers_named (answered_tree self.now) (answered_table self.now) name.now }
    {
        let place = place_of(&self.tree, name)?;
        let bind = self.book.bind(place)?;
        words_of(bind, &self.cells)
    }
}

// The place of the first name of a script that has these bytes.
fn place_of(script: &Script, name: &[u8]) -> Option<usize>
    ensures { result ≡ place_from 0 name.now script.now.names }
{
    for i in 0..script.names.len() {
        let Some(text) = script.names.get(i) else {
            unreachable!()
        };
        if text.as_bytes() == name {
            return Some(i);
        }
    }
    None
}

// The words of a container that are its numbers, one after another.
fn words_of(bind: Bind, cells: &[i64]) -> Option<&[i64]>
    requires holds { (start : ℕ) × (c : Contents) × (bind ≡ bind_of start c) × Holds (cells_of cells.now) bind c }
    requires within { end_of bind ≤ length cells.now }
    ensures { (c : Contents) → Holds (cells_of cells.now) bind c → option_copied result ≡ numbers_of c }
{
    match bind {
        Bind::Array { at, .. } => Some(part(cells, at.start as usize, at.len as usize)),
        Bind::Ref(at) => Some(part(cells, at.start as usize, 1)),
        Bind::List(at) => {
            let start = at.start as usize;
            Some(part(cells, start + 1, cells[start] as usize))
        }
        Bind::Map(_) | Bind::Stream { .. } => None,
        // No container has these.
        Bind::Int(_) | Bind::View { .. } => unreachable!(),
    }
}

// So many cells from one on.
fn part(cells: &[i64], start: usize, len: usize) -> &[i64]
    requires within { start + len ≤ length cells.now }
    ensures { result.now ≡ cell_list (cells_of cells.now) start len }
{
    &cells[start..start + len]
}
