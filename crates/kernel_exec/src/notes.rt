// What is noted of the traps of some indexes.
ghost use Rattle.std.specs.Prelude.{◌≡◌, ◌≤◌, ◌<◌, ◌+◌, ◌++◌, ◌^◌, [], ℕ, List};
ghost use Rattle.job_base.specs.declared.Trap.{Trap};
ghost use Rattle.frame_ast.specs.JobRuns.{trap_at};
ghost use Rattle.kernel_exec.specs.Notes.{IsNoteOf};

use job_base::Trap;

/// How many traps some indexes met, and the first of them with its index.
#[derive(Clone, Copy, Debug, PartialEq, Eq)]
pub struct Notes {
    pub count: u32,
    pub first: Option<(u32, Trap)>,
}

impl Notes {
    /// Those of no index.
    pub fn none() -> Notes
        ensures count { result.count ≡ 0 }
        ensures note { IsNoteOf [] result }
    {
        Notes {
            count: 0,
            first: None,
        }
    }

    /// One more index, which met a trap or none.
    pub fn add(&mut self, index: u32, trap: Option<Trap>)
        requires few { self.old.count + 1 < 2 ^ 32 }
        ensures count { self.new.count ≤ self.old.count + 1 }
        ensures note { (traps : List (ℕ × Trap)) → IsNoteOf traps self.old
            → IsNoteOf (traps ++ trap_at index trap) self.new }
    {
        let Some(trap) = trap else {
            return;
        };
        if self.count == 0 {
            self.first = Some((index, trap));
        }
        self.count += 1;
    }
}
