//! The statements of a script, written out while its text is read.

ghost use Rattle.std.specs.Prelude.{◌≡◌, ◌<◌, ◌≤◌, ◌-◌, Some, None, false, length, take, drop, IfOk, reverse, MatchResult};
ghost use Rattle.job_base.specs.declared.limits.TheConstants.{MOST_STATEMENTS};
ghost use Rattle.frame_ast.specs.Accepted.{is_when};
ghost use Rattle.frame_script.specs.Writing.{Writing, fits_in, nothing_written, put, opened, with_count, count_at, PutsCopyAt, PutsCopies, PutsRepeated, Closes};
ghost use Rattle.frame_script.specs.declared.written.OpenBlock.TheVariants as block;

use crate::copies::{copy_of, small_copy};
use frame_ast::script::{Order, Statement};
use job_base::NoMemory;
use job_base::limits::{MOST_STATEMENTS, MOST_TESTS};
use std::alloc::Global;
use std::marker::Model;

/// A block whose end hasn't been read.
#[derive(Clone, Copy, Debug, PartialEq, Eq)]
pub enum OpenBlock {
    /// Its statements begin at a place, and are to stand so many times.
    Repeat { start: u32, count: u32 },
    /// The `when` stands at a place, and its statements after it.
    When { at: u32 },
}

/// The statements that a text was written out to so far, up to the first for which there is no room.
#[derive(Drop)]
pub struct Written {
    statements: Vec<Statement>,
    /// How many of them are `when`.
    tests: u32,
    /// The line of the first statement for which there is no room.
    over: Option<u32>,
    /// The open blocks, the innermost last.
    blocks: Vec<OpenBlock>,
}

// Says of a `when` how many statements its block has. No other statement counts any.
fn set_count(order: &mut Order, in_block: u32)
    ensures { order.new ≡ with_count in_block order.old }
{
    if let Order::When { count, .. } = order {
        *count = in_block;
    }
}

impl Model for Written {
    ghost Value = { Writing };

    ghost view = { λ s. record {
      statements = s.statements.items;
      tests = s.tests;
      over = s.over;
      blocks = reverse s.blocks.items;
    } };

    ghost invariant = { λ s. length s.statements.items ≤ MOST_STATEMENTS };
}

impl Written {
    /// Nothing is written, and no block is open.
    pub fn new(alloc: Global) -> Self
        ensures { result ≡ nothing_written }
    {
        Written {
            statements: Vec::new(alloc),
            tests: 0,
            over: None,
            blocks: Vec::new(alloc),
        }
    }

    // Whether there is room for one more statement.
    fn has_room(&self, order: &Order) -> bool
        ensures { result ≡ fits_in (length self.now.statements) self.now.tests order.now }
    {
        self.statements.len() < MOST_STATEMENTS as usize
            && (!order.is_when() || self.tests < MOST_TESTS)
    }

    /// Writes a statement. The first for which there is no room is kept by its line, and none after it is written.
    // In line, since a call would lay the statement into memory once more.
    #[inline(always)]
    pub fn add(&mut self, line: u32, act: Order) -> Result<(), NoMemory>
        ensures { IfOk result (λ _. self.new ≡ put self.old (record { line = line; act = act })) }
    {
        if self.over.is_some() {
            return Ok(());
        }
        if !self.has_room(&act) {
            self.over = Some(line);
            return Ok(());
        }
        if act.is_when() {
            self.tests += 1;
        }
        self.statements.push(Statement { line, act })?;
        Ok(())
    }

    /// Writes a statement that is no `when`.
    // Room is made first, so that the statement is made where it is to lie.
    #[inline(always)]
    pub fn add_plain(&mut self, line: u32, act: Order) -> Result<(), NoMemory>
        requires { is_when act ≡ false }
        ensures { IfOk result (λ _. self.new ≡ put self.old (record { line = line; act = act })) }
    {
        if self.over.is_some() {
            return Ok(());
        }
        if self.statements.len() >= MOST_STATEMENTS as usize {
            self.over = Some(line);
            return Ok(());
        }
        if self.statements.len() == self.statements.capacity() {
            self.statements.reserve(1)?;
        }
        self.statements.push_reserved(Statement { line, act });
        Ok(())
    }

    /// Opens the block of a `repeat`, which is to stand so many times.
    pub fn open_repeat(&mut self, count: u32) -> Result<(), NoMemory>
        ensures { IfOk result (λ _. self.new ≡ opened (block.Repeat (length self.old.statements) count) self.old) }
    {
        let start = self.statements.len() as u32;
        self.blocks.push(OpenBlock::Repeat { start, count })?;
        Ok(())
    }

    /// Writes a `when`, and opens its block.
    pub fn open_when(&mut self, line: u32, act: Order) -> Result<(), NoMemory>
        ensures { IfOk result (λ _. self.new ≡ opened (block.When (length self.old.statements))
            (put self.old (record { line = line; act = act }))) }
    {
        let at = self.statements.len() as u32;
        self.add(line, act)?;
        self.blocks.push(OpenBlock::When { at })?;
        Ok(())
    }

    // Writes the statements between two places once more.
    fn copy(&mut self, alloc: Global, start: usize, end: usize) -> Result<(), NoMemory>
        requires order { start ≤ end }
        requires within { end ≤ length self.old.statements }
        ensures { IfOk result (λ _. PutsCopies (drop start (take end self.old.statements)) self.old self.new) }
    {
        for at in start..end {
            self.copy_one(alloc, at)?;
        }
        Ok(())
    }

    // Writes the statement at a place once more.
    // Nearly all statements of long blocks are small. Those are made where they are to lie: one that is handed on goes
    // through memory three times.
    #[inline(always)]
    fn copy_one(&mut self, alloc: Global, at: usize) -> Result<(), NoMemory>
        requires { at < length self.old.statements }
        ensures { IfOk result (λ _. PutsCopyAt at self.old self.new) }
    {
        if self.over.is_some() || self.statements.len() >= MOST_STATEMENTS as usize {
            return self.copy_any(alloc, at);
        }
        if self.statements.len() == self.statements.capacity() {
            self.statements.reserve(1)?;
        }
        let statement = &self.statements[at];
        let line = statement.line;
        let Some(act) = small_copy(&statement.act) else {
            return self.copy_any(alloc, at);
        };
        self.statements.push_reserved(Statement { line, act });
        Ok(())
    }

    // The same, whatever statement it is.
    #[inline(never)]
    fn copy_any(&mut self, alloc: Global, at: usize) -> Result<(), NoMemory>
        requires { at < length self.old.statements }
        ensures { IfOk result (λ _. PutsCopyAt at self.old self.new) }
    {
        let copy = copy_of(alloc, &self.statements[at])?;
        self.add(copy.line, copy.act)?;
        Ok(())
    }

    // Writes the statements from a place on again until they stand so many times. Where there are none, that many
    // times none aren't counted through.
    fn repeat(&mut self, alloc: Global, start: usize, count: u32) -> Result<(), NoMemory>
        ensures { IfOk result (λ _. PutsRepeated (count - 1) (drop start self.old.statements) self.old self.new) }
    {
        let end = self.statements.len();
        if end <= start {
            return Ok(());
        }
        for _ in 1..count {
            if self.over.is_some() {
                return Ok(());
            }
            self.copy(alloc, start, end)?;
        }
        Ok(())
    }

    // A `when` counts the statements after it. One for which there was no room isn't there.
    fn count(&mut self, at: usize)
        ensures { self.new ≡ record self.old { statements = count_at at self.old.statements } }
    {
        let len = self.statements.len();
        if at < len {
            set_count(&mut self.statements[at].act, (len - at - 1) as u32);
        }
    }

    /// The innermost block ends here.
    pub fn close(&mut self, alloc: Global) -> Result<(), NoMemory>
        requires { 0 < length self.old.blocks }
        ensures { IfOk result (λ _. Closes self.old self.new) }
    {
        match self.blocks.pop() {
            Some(OpenBlock::Repeat { start, count }) => self.repeat(alloc, start as usize, count),
            Some(OpenBlock::When { at }) => {
                self.count(at as usize);
                Ok(())
            }
            None => unreachable!(),
        }
    }

    /// The statements, or the line of the first for which there is no room.
    pub fn finish(self) -> Result<Vec<Statement>, u32>
        ensures { MatchResult result (λ statements. (self.over ≡ None) × (statements.items ≡ self.statements))
            (λ line. self.over ≡ Some line) }
    {
        match self.over {
            None => Ok(self.statements),
            Some(line) => Err(line),
        }
    }
}
