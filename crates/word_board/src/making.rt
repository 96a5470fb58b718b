//! A new board, with its seats.
ghost use Rattle.std.specs.Prelude.{◌≡◌, ℕ, suc, ◌<◌, ◌≤◌, true, List, map, ◌++◌, IfOk, OnOk, length, slice_index};
ghost use Rattle.std.specs.Int.{cast_signed};
ghost use mir.Syntax.{w64};
ghost use Rattle.job_base.specs.Cells.{cells_of};
ghost use Rattle.frame_core.specs.Names.{job_pieces, pieces_before};
ghost use Rattle.frame_core.specs.Ordered.{IsWellOrderedPlan};
ghost use Rattle.job_base.specs.declared.limits.TheConstants.{MOST_WORKERS};
ghost use Rattle.word_board.specs.Boards.{AreNewSeats, IsNewSeat, plan_of};
ghost use Rattle.word_board.specs.Seats.{AreJobNumbers, AreNew};
ghost use Rattle.word_board.specs.Words.{cell_word};

use crate::board::WordBoard;
use crate::seat::WordSeat;
use atomic_table::Table;
use frame_core::Plan;
use job_base::NoMemory;
use std::alloc::{AllocError, Global};
use std::mem;

/// The number of the first piece after those of the job at place `j`.
fn end_of(plan: &Plan, j: usize, parts: u32) -> u32
    requires well { IsWellOrderedPlan plan.now }
    requires parts { parts ≡ job_pieces plan.now }
    requires job { j < length plan.now.jobs.items }

    ensures end { result ≡ pieces_before plan.now.jobs.items (suc j) }
{
    if j + 1 < plan.jobs.len() {
        plan.jobs[j + 1].first.0
    } else {
        parts
    }
}

/// Writes the number of a job for each of its pieces.
fn push_job(jobs: &mut Vec<u32>, job: u32, end: u32) -> Result<(), AllocError>
    requires end { length jobs.old.items ≤ end }

    ensures size { IfOk result (λ _. length jobs.new.items ≡ end) }
    ensures new { IfOk result (λ _. (p : ℕ) → length jobs.old.items ≤ p → p < end
        → slice_index jobs.new.items p ≡ job) }
    ensures old { IfOk result (λ _. (p : ℕ) → p < length jobs.old.items
        → slice_index jobs.new.items p ≡ slice_index jobs.old.items p) }
{
    while jobs.len() < end as usize {
        jobs.push(job)?;
    }
    Ok(())
}

/// The job of each piece of a job.
fn number_jobs(alloc: Global, plan: &Plan, parts: u32) -> Result<Vec<u32>, AllocError>
    requires well { IsWellOrderedPlan plan.now }
    requires parts { parts ≡ job_pieces plan.now }

    ensures size { IfOk result (λ v. length v.items ≡ job_pieces plan.now) }
    ensures jobs { IfOk result (λ v. AreJobNumbers plan.now v.items) }
{
    let mut jobs = Vec::with_capacity(alloc, parts as usize)?;
    for j in 0..plan.jobs.len() {
        let end = end_of(plan, j, parts);
        push_job(&mut jobs, j as u32 + 1, end)?;
    }
    Ok(jobs)
}

/// Adds the words of cells, which have the same bits.
fn add_cells(words: &mut Vec<u64>, cells: &[i64]) -> Result<(), AllocError>
    ensures { OnOk result ((bits : List ℕ) × (map (cast_signed w64) bits ≡ cells.now)
        × (words.new.items ≡ words.old.items ++ bits)) }
{
    let bits = |cell: &i64|
        ensures { cast_signed w64 result ≡ cell.now }
    { cell.cast_unsigned() };
    words.extend(cells.iter().map(bits))
}

/// Word 0, the first cells, and words of 0 up to that count, in a list that is needed no more. Zeros with the cells
/// laid over them would be one pass more over a large memory.
fn words_of_cells(first: &[i64], count: usize, spare: Vec<u64>) -> Result<Vec<u64>, AllocError>
    requires room { length first.now < count }

    ensures size { IfOk result (λ v. length v.items ≡ count) }
    ensures split { IfOk result (λ v. slice_index v.items 0 ≡ 0) }
    ensures cells { IfOk result (λ v. (w : ℕ) → w < length first.now
        → cast_signed w64 (slice_index v.items (cell_word w)) ≡ cells_of first.now w) }
    ensures others { IfOk result (λ v. (i : ℕ) → length first.now < i → slice_index v.items i ≡ 0) }
{
    let mut words = spare;
    words.clear();
    words.reserve(count)?;
    words.push(0)?;
    add_cells(&mut words, first)?;
    words.resize(count, 0)?;
    Ok(words)
}

/// The words of a new board, in a list that is needed no more.
fn first_words(plan: &Plan, parts: u32, spare: Vec<u64>) -> Result<Vec<u64>, AllocError>
    requires well { IsWellOrderedPlan plan.now }
    requires parts { parts ≡ job_pieces plan.now }

    ensures words { IfOk result (λ v. AreNew plan.now v.items) }
{
    let rests = 1 + plan.words as usize + parts as usize + plan.segments.len();
    let waits = rests + plan.jobs.len();
    let mut words = words_of_cells(&plan.first, waits + plan.jobs.len(), spare)?;
    for j in 0..plan.jobs.len() {
        words[rests + j] = (end_of(plan, j, parts) - plan.jobs[j].first.0) as u64;
        words[waits + j] = 1 + plan.jobs[j].deps.len() as u64;
    }
    Ok(words)
}

/// Seats, of which the first is the one that is handed in.
fn make_seats(
    alloc: Global,
    board: &WordBoard,
    first: WordSeat,
    seats: u32,
) -> Result<Vec<WordSeat>, AllocError>
    requires seats { 1 ≤ seats }
    requires first { IsNewSeat board.now true first }

    ensures size { IfOk result (λ v. length v.items ≡ seats) }
    ensures seats { IfOk result (λ v. AreNewSeats board.now v.items) }
{
    let mut last = first;
    let mut all = Vec::with_capacity(alloc, seats as usize)?;
    for _made in 1..seats {
        let next = board.split(&mut last);
        all.push(last)?;
        last = next;
    }
    all.push(last)?;
    Ok(all)
}

impl WordBoard {
    /// A board of a plan with its seats, of which the first runs the segments. All pieces are closed, and the cells are
    /// the plan's first. Until it returns its words are there twice, since the table copies those that it is made of.
    pub fn make(
        alloc: Global,
        plan: &Plan,
        seats: u32,
    ) -> Result<(WordBoard, Vec<WordSeat>), NoMemory>
        requires well { IsWellOrderedPlan plan.now }
        requires seats { (1 ≤ seats) × (seats ≤ MOST_WORKERS) }

        ensures plan { IfOk result (λ r. plan_of r.0 ≡ plan.now) }
        ensures count { IfOk result (λ r. length r.1.items ≡ seats) }
        ensures seats { IfOk result (λ r. AreNewSeats r.0 r.1.items) }
    {
        let mut words = Vec::new(alloc);
        WordBoard::make_in(alloc, plan, seats, &mut words)
    }

    /// The same, where the words that the table copies are laid in a list that is needed no more, and that stays. Who
    /// makes one board after another keeps it, so that a large list is taken once.
    pub fn make_in(
        alloc: Global,
        plan: &Plan,
        seats: u32,
        spare: &mut Vec<u64>,
    ) -> Result<(WordBoard, Vec<WordSeat>), NoMemory>
        requires well { IsWellOrderedPlan plan.now }
        requires seats { (1 ≤ seats) × (seats ≤ MOST_WORKERS) }

        ensures plan { IfOk result (λ r. plan_of r.0 ≡ plan.now) }
        ensures count { IfOk result (λ r. length r.1.items ≡ seats) }
        ensures seats { IfOk result (λ r. AreNewSeats r.0 r.1.items) }
    {
        let parts = plan.words - plan.cells;
        let jobs = number_jobs(alloc, plan, parts)?;
        let words = first_words(plan, parts, mem::replace(spare, Vec::new(alloc)))?;
        let (table, token) = Table::of_words(alloc, words.as_slice(), plan)?;
        *spare = words;
        let states = 1 + plan.words as usize;
        let rests = states + parts as usize + plan.segments.len();
        let board = WordBoard {
            table,
            jobs,
            cells: plan.words,
            states,
            rests,
            waits: rests + plan.jobs.len(),
        };
        let all = make_seats(alloc, &board, WordSeat { token, piece: 0 }, seats)?;
        Ok((board, all))
    }
}
