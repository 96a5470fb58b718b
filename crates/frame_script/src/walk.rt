//! Goes over the items of a file, and writes out the script that they parse to.

ghost use Rattle.std.specs.Prelude.{◌≡◌, ◌-◌, ◌<◌, ◌≤◌, ◌^◌, ℕ, [], None, Some, false, length, IfOk, MatchOption};
ghost use Rattle.frame_ast.specs.declared.kernel.FaultKind.{FaultKind};
ghost use Rattle.frame_parser.specs.Notes.{events_of};
ghost use Rattle.kernel_text.specs.Tokens.{kinds, NamesAreText};
ghost use Rattle.kernel_raw.specs.Legible.{NamesStand};
ghost use Rattle.frame_ast.specs.Lists.{first_some};
ghost use Rattle.script_text.specs.Raw.{form_of, Repeat, When};
ghost use Rattle.script_text.specs.Known.{known_form};
ghost use Rattle.script_text.specs.Events.{closing};
ghost use Rattle.script_text.specs.Places.{TestStands, OrderStands, IsFile};
ghost use Rattle.script_text.specs.Sources.{file_tokens, line_at};
ghost use Rattle.script_text.specs.Lines.{IsOn};
ghost use Rattle.script_checks.specs.Faults.{order_faults};
ghost use Rattle.script_checks.specs.Checks.{Gives};
ghost use Rattle.frame_script.specs.Writing.{nothing_written};
ghost use Rattle.frame_script.specs.Walking.{scope_of, Tells, TakesSingle, TakesRepeat, TakesWhen, Takes, Leaves, IsWalking, IsThrough, RefusesItems};

use crate::LoadFault;
use crate::walk_kernel::add_kernel;
use crate::walk_order::{bind_name, check_statement, count_of};
use crate::written::Written;
use frame_grammar::TokenAt;
use frame_parser::Note;
use job_base::NoMemory;
use script_checks::{Comparison, Kernels, OrderFault, check_known, check_repeat, check_when};
use script_names::Names;
use script_text::{
    KnownOrder, LineCursor, RawItem, RawNumber, RawOrder, Source, known_item, raw_item,
};
use std::alloc::Global;

/// What is known after some items of a file, and the part of its script that they are.
#[derive(Drop)]
pub struct Walk<'a> {
    pub names: Names<'a>,
    pub kernels: Kernels<'a>,
    pub literals: Vec<Vec<i64>>,
    pub written: Written,
    /// Whether one of the open blocks is a `when`.
    pub tested: bool,
    /// The same around each open block, the outermost first.
    pub outer_tests: Vec<bool>,
}

// The refusal of a file for a fault of a statement.
#[inline(never)]
fn refusal_for(source: Source<'_>, fault: OrderFault) -> LoadFault
    requires few { length source.marks.now < 2 ^ 32 - 1 }
    ensures { (line : ℕ) (kind : FaultKind) → result ≡ LoadFault.Refused line kind →
        Tells source.entry fault line kind }
{
    match fault {
        OrderFault::Refused(fault) => LoadFault::Refused {
            line: source.line(fault.at),
            kind: fault.kind,
        },
        OrderFault::NoMemory => LoadFault::NoMemory,
    }
}

impl<'a> Walk<'a> {
    /// Before the first item of a file of so many tokens.
    fn new(alloc: Global, tokens: usize) -> Result<Self, NoMemory>
        ensures names { IfOk result (λ walk. walk.names ≡ []) }
        ensures kernels { IfOk result (λ walk. walk.kernels ≡ []) }
        ensures literals { IfOk result (λ walk. walk.literals.items ≡ []) }
        ensures written { IfOk result (λ walk. walk.written ≡ nothing_written) }
        ensures tested { IfOk result (λ walk. walk.tested ≡ false) }
        ensures outer_tests { IfOk result (λ walk. walk.outer_tests.items ≡ []) }
    {
        Ok(Walk {
            // A statement that makes a name has some four tokens, so a name has two buckets, and few share theirs.
            names: Names::new(alloc, tokens / 2)?,
            kernels: Kernels::new(alloc),
            literals: Vec::new(alloc),
            written: Written::new(alloc),
            tested: false,
            outer_tests: Vec::new(alloc),
        })
    }

    // A statement without a block.
    fn take_plain(
        &mut self,
        alloc: Global,
        source: Source<'a>,
        at: TokenAt,
        line: u32,
        raw: &RawOrder<'_>,
    ) -> Result<(), OrderFault>
        requires line { line ≡ line_at source at }
        requires single { closing (form_of raw.now) ≡ None }
        ensures { Gives (first_some (order_faults source.entry (scope_of self.old) at (form_of raw.now)))
            (λ _. TakesSingle source.entry at (form_of raw.now) self.old self.new) result }
    {
        let act = check_statement(
            alloc,
            source,
            &self.names,
            &self.kernels,
            &mut self.literals,
            raw,
        )?;
        bind_name(source, &mut self.names, raw, &act)?;
        self.written.add(line, act)?;
        Ok(())
    }

    // What stands before the brace of a `repeat`.
    #[inline(never)]
    fn open_repeat(
        &mut self,
        source: Source<'a>,
        at: TokenAt,
        count: TokenAt,
    ) -> Result<(), OrderFault>
        ensures { Gives (first_some (order_faults source.entry (scope_of self.old) at (Repeat count)))
            (λ _. TakesRepeat source.entry count self.old self.new) result }
    {
        let blocks = count_of(self.outer_tests.len())?;
        let count = check_repeat(source, blocks, at, count)?;
        self.written.open_repeat(count)?;
        self.outer_tests.push(self.tested)?;
        Ok(())
    }

    // What stands before the brace of a `when`.
    #[inline(never)]
    fn open_when(
        &mut self,
        source: Source<'a>,
        at: TokenAt,
        line: u32,
        name: TokenAt,
        sign: TokenAt,
        value: RawNumber,
    ) -> Result<(), OrderFault>
        requires line { line ≡ line_at source at }
        requires stands { TestStands (kinds (file_tokens source)) sign }
        ensures { Gives (first_some (order_faults source.entry (scope_of self.old) at (When name sign value)))
            (λ _. TakesWhen source.entry at (When name sign value) self.old self.new) result }
    {
        let blocks = count_of(self.outer_tests.len())?;
        let test = Comparison { name, sign, value };
        let act = check_when(source, &self.names, blocks, self.tested, at, test)?;
        self.written.open_when(line, act)?;
        self.outer_tests.push(self.tested)?;
        self.tested = true;
        Ok(())
    }

    // The end of a block.
    #[inline(never)]
    fn close(&mut self, alloc: Global) -> Result<(), NoMemory>
        requires inside { 0 < length self.old.outer_tests.items }
        requires open { 0 < length self.old.written.blocks }
        ensures { IfOk result (λ _. Leaves self.old self.new) }
    {
        self.written.close(alloc)?;
        match self.outer_tests.pop() {
            Some(tested) => self.tested = tested,
            None => unreachable!(),
        }
        Ok(())
    }

    // A statement, whose first token lies on this line; of `repeat` and `when`, what stands before the
    // brace.
    fn take_statement(
        &mut self,
        alloc: Global,
        source: Source<'a>,
        at: TokenAt,
        line: u32,
        raw: &RawOrder<'_>,
    ) -> Result<(), OrderFault>
        requires line { line ≡ line_at source at }
        requires stands { OrderStands (kinds (file_tokens source)) (form_of raw.now) }
        ensures { Gives (first_some (order_faults source.entry (scope_of self.old) at (form_of raw.now)))
            (λ _. Takes source.entry at (form_of raw.now) self.old self.new) result }
    {
        if let RawOrder::Repeat { count } = raw {
            self.open_repeat(source, at, *count)
        } else if let RawOrder::When { name, sign, value } = raw {
            self.open_when(source, at, line, *name, *sign, *value)
        } else {
            self.take_plain(alloc, source, at, line, raw)
        }
    }

    // One of the statements that many lines are, whose first token lies on this line.
    #[inline(always)]
    fn take_known(
        &mut self,
        alloc: Global,
        source: Source<'a>,
        at: TokenAt,
        line: u32,
        order: KnownOrder,
    ) -> Result<(), OrderFault>
        requires line { line ≡ line_at source at }
        ensures { Gives (first_some (order_faults source.entry (scope_of self.old) at (known_form order)))
            (λ _. Takes source.entry at (known_form order) self.old self.new) result }
    {
        let act = check_known(alloc, source, &mut self.names, order)?;
        self.written.add_plain(line, act)?;
        Ok(())
    }

    // Goes over the item at an event, as `step` does, whatever item it is.
    #[inline(never)]
    fn step_any(
        &mut self,
        alloc: Global,
        source: Source<'a>,
        notes: &[Note],
        at: usize,
        lines: &mut LineCursor,
    ) -> Result<Option<usize>, LoadFault>
        requires few { length source.marks.now < 2 ^ 32 - 1 }
        requires text { NamesAreText source.bytes.now (file_tokens source) }
        requires named { NamesStand (kinds (file_tokens source)) (events_of notes.now) }
        requires within { at ≤ length (events_of notes.now) }
        requires walking { IsWalking source (events_of notes.now) at self.old }
        requires on { IsOn source lines.old }
        ensures walked { IfOk result (λ found. MatchOption found (IsThrough source.entry (events_of notes.now) self.new)
            (λ next. (at < next) × (next ≤ length (events_of notes.now))
            × IsWalking source.entry (events_of notes.now) next self.new)) }
        ensures on { IfOk result (λ _. IsOn source.entry lines.new) }
        ensures refused { (line : ℕ) (kind : FaultKind) → result ≡ Err (LoadFault.Refused line kind) →
            RefusesItems source.entry (events_of notes.now) line kind }
    {
        match raw_item(alloc, notes, at)? {
            RawItem::None => Ok(None),
            RawItem::Kernel { next } => {
                add_kernel(alloc, source, &mut self.kernels, &notes[at..next])?;
                Ok(Some(next))
            }
            RawItem::Order { first, order, next } => {
                let line = lines.go_to(source, first);
                match self.take_statement(alloc, source, first, line, &order) {
                    Ok(()) => Ok(Some(next)),
                    Err(fault) => Err(refusal_for(source, fault)),
                }
            }
            RawItem::End { next } => {
                self.close(alloc)?;
                Ok(Some(next))
            }
        }
    }

    /// Goes over the item at an event. Answers the event after it, or none where no item is left.
    // Nearly all items of long scripts are known statements. The others have large parts, and stand out of line.
    fn step(
        &mut self,
        alloc: Global,
        source: Source<'a>,
        notes: &[Note],
        at: usize,
        lines: &mut LineCursor,
    ) -> Result<Option<usize>, LoadFault>
        requires few { length source.marks.now < 2 ^ 32 - 1 }
        requires text { NamesAreText source.bytes.now (file_tokens source) }
        requires named { NamesStand (kinds (file_tokens source)) (events_of notes.now) }
        requires within { at ≤ length (events_of notes.now) }
        requires walking { IsWalking source (events_of notes.now) at self.old }
        requires on { IsOn source lines.old }
        ensures walked { IfOk result (λ found. MatchOption found (IsThrough source.entry (events_of notes.now) self.new)
            (λ next. (at < next) × (next ≤ length (events_of notes.now))
            × IsWalking source.entry (events_of notes.now) next self.new)) }
        ensures on { IfOk result (λ _. IsOn source.entry lines.new) }
        ensures refused { (line : ℕ) (kind : FaultKind) → result ≡ Err (LoadFault.Refused line kind) →
            RefusesItems source.entry (events_of notes.now) line kind }
    {
        let Some(item) = known_item(notes, at) else {
            return self.step_any(alloc, source, notes, at, lines);
        };
        let line = lines.go_to(source, item.first);
        match self.take_known(alloc, source, item.first, line, item.order) {
            Ok(()) => Ok(Some(item.next)),
            Err(fault) => Err(refusal_for(source, fault)),
        }
    }
}

/// Goes over all items of a file.
pub fn walk_file<'a>(
    alloc: Global,
    source: Source<'a>,
    notes: &[Note],
) -> Result<Walk<'a>, LoadFault>
    requires few { length source.marks.now < 2 ^ 32 - 1 }
    requires text { NamesAreText source.bytes.now (file_tokens source) }
    requires named { NamesStand (kinds (file_tokens source)) (events_of notes.now) }
    requires file { IsFile (kinds (file_tokens source)) (events_of notes.now) }
    ensures through { IfOk result (λ walk. IsThrough source.entry (events_of notes.now) walk) }
    ensures refused { (line : ℕ) (kind : FaultKind) → result ≡ Err (LoadFault.Refused line kind) →
        RefusesItems source.entry (events_of notes.now) line kind }
{
    let mut walk = Walk::new(alloc, source.marks.len())?;
    let mut lines = LineCursor::new();
    let mut at = 0;
    while let Some(next) = walk.step(alloc, source, notes, at, &mut lines)? {
        at = next;
    }
    Ok(walk)
}
