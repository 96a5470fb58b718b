// Which statements of a script a plan is of.
ghost use Rattle.std.specs.Prelude.{◌≡◌, slice_get};
ghost use Rattle.frame_view.specs.Parts.{part_of, passed_by, passed_with, passing_after, whole};

use frame_ast::script::{Order, Script};

/// Which statements of a script a plan is of.
#[derive(Clone, Copy)]
pub struct Part {
    /// The places of the first one, and of the first one after them.
    pub from: usize,
    pub to: usize,
    /// How many of the first ones are passed by.
    pub passed: u32,
}

// How many statements are passed by after one that acts no more: the block of a `when`.
fn passed_with(act: &Order) -> u32
    ensures { result ≡ passed_with act.now }
{
    if let Order::When { count, .. } = act {
        *count
    } else {
        0
    }
}

/// How many are passed by after a statement, where so many were to be passed by before it.
pub(crate) fn passing_after(passing: u32, act: &Order) -> u32
    ensures { result ≡ passing_after passing act.now }
{
    match passing {
        0 => passed_with(act),
        more => more - 1,
    }
}

// How many are passed by after the statement at a place, where it acts no more.
fn passed_at(script: &Script, at: usize) -> u32
    ensures { result ≡ passed_by (slice_get script.now.statements.items at) }
{
    match script.statements.get(at) {
        Some(statement) => passed_with(&statement.act),
        None => 0,
    }
}

impl Part {
    /// The whole of a script.
    pub fn whole(script: &Script) -> Part
        ensures { result ≡ whole script.now }
    {
        Part {
            from: 0,
            to: script.statements.len(),
            passed: 0,
        }
    }

    /// Those of a section from one place to another. `held` says whether the test holds at the `when` where it begins,
    /// whose block is passed by where it doesn't; the first section begins at no `when`.
    pub fn of(script: &Script, from: usize, to: usize, held: Option<bool>) -> Part
        ensures { result ≡ part_of script.now from to held }
    {
        match held {
            None => Part {
                from,
                to,
                passed: 0,
            },
            Some(true) => Part {
                from: from.saturating_add(1),
                to,
                passed: 0,
            },
            Some(false) => Part {
                from: from.saturating_add(1),
                to,
                passed: passed_at(script, from),
            },
        }
    }
}
