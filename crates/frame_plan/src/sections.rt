// A script section by section: each is planned once the test is decided at which the one before it ended.
ghost use Rattle.std.specs.Prelude.{◌≡◌, ◌⊎◌, ◌<◌, ◌≤◌, ◌+◌, ℕ, IfOk, IfErr, OnOk, None, Some, slice_get, length};
ghost use Rattle.frame_ast.specs.Accepted.{IsAccepted};
ghost use Rattle.frame_ast.specs.Limits.{limit_of};
ghost use Rattle.frame_ast.specs.Orders.{Table as Columns, setting};
ghost use Rattle.merge_laws.specs.Graph.{Cells};
ghost use Rattle.frame_plan.specs.References.{IsReferenceOf, IsTestFor};
ghost use Rattle.frame_plan.specs.Sections.{limit_told, passed_after, IsPlannedFrom, IsTakenBack, IsBetween, IsAt, IsOutcome, AreLeft, IsNext, place_of, small_jobs_of};
ghost use Rattle.plan_statements.specs.Tables.{columns_of};

use crate::finishing::finish;
use crate::limits::{check_text, has_test};
use crate::names::names_of;
use crate::planner::{at_start, run};
use crate::resume::begin;
use crate::section::{Section, Test};
use crate::small_jobs::SmallJobs;
use frame_ast::NameTexts;
use frame_ast::script::{Order, Script};
use frame_core::Plan;
use job_base::{FlatMem, NoMemory};
use kernel_exec::Bind;
use native_array::RefAt;
use plan_state::{PlanFault, Planner, Value};
use std::alloc::Global;
use std::mem;
use table_in::Table;

/// The planner of a script, between two sections.
#[derive(Drop)]
pub struct SectionBook {
    pub(crate) planner: Planner,
    /// How jobs of little work are cut.
    pub(crate) small_jobs: SmallJobs,
    /// How many statements were gone through.
    pub(crate) at: u32,
    /// The script's names, for the plan that is handed out next.
    pub(crate) names: NameTexts,
    /// The cells with which the last section began, as memory that is needed no more.
    pub(crate) spare: Vec<i64>,
}

impl SectionBook {
    /// The book at the script's beginning, if the script stays within the limits of the language. Without a `when` it
    /// is what the statements do that counts, with one it is what their text says.
    pub fn new(
        alloc: Global,
        script: &Script,
        table: &Table,
        small_jobs: SmallJobs,
    ) -> Result<SectionBook, PlanFault>
        requires accepted { IsAccepted script.now }
        ensures limit { IfErr result (λ fault. (fault ≡ PlanFault.NoMemory)
            ⊎ (limit_of (setting script.now (columns_of table.now)) script.now.statements.items
            ≡ limit_told fault)) }
        ensures within { IfOk result (λ book.
            limit_of (setting script.now (columns_of table.now)) script.now.statements.items ≡ None) }
        ensures at { IfOk result (λ book. (carried : Cells) (len : ℕ)
            → IsAt book script.now (columns_of table.now) 0 carried len) }
        ensures small_jobs { IfOk result (λ book. small_jobs_of book ≡ small_jobs) }
    {
        if has_test(script) {
            check_text(script, table)?;
        }
        let mut planner = at_start(alloc, script, small_jobs)?;
        let at = run(&mut planner, alloc, script, table, 0)?;
        let names = names_of(script)?;
        Ok(SectionBook {
            planner,
            small_jobs,
            at,
            names,
            spare: Vec::new(alloc),
        })
    }

    /// How many statements were gone through: where the section ends that was handed out last, or is planned first.
    pub fn place(&self) -> u32
        ensures { result ≡ place_of self.now }
    {
        self.at
    }

    /// The next section. `held` says whether the test holds at which the last one ended, and `cells` begin with the
    /// words that it left; the first section has none before it. Its plan takes the cells over and copies none of them:
    /// in their place stay those with which the last section began, as memory that is needed no more. After an error
    /// the book is of no use.
    pub fn next(
        &mut self,
        alloc: Global,
        script: &Script,
        table: &Table,
        held: Option<bool>,
        cells: &mut FlatMem,
    ) -> Result<Section, NoMemory>
        requires at { (from : ℕ) × (carried : Cells) × (len : ℕ)
            × IsAt self.old script.now (columns_of table.now) from carried len
            × IsOutcome script.now (columns_of table.now) from held
            × AreLeft cells.old carried len }
        ensures section { (from : ℕ) (carried : Cells) (len : ℕ)
            → IsAt self.old script.now (columns_of table.now) from carried len
            → IsOutcome script.now (columns_of table.now) from held
            → AreLeft cells.old carried len
            → IfOk result (IsNext self.new script.now (columns_of table.now) from) }
        ensures small_jobs { small_jobs_of self.new ≡ small_jobs_of self.old }
    {
        match held {
            None => self.hand_out(alloc, script),
            Some(held) => {
                let spare = mem::replace(&mut self.spare, Vec::new(alloc));
                let left = mem::replace(cells, FlatMem::of(spare));
                self.resume(alloc, script, table, held, left)?;
                self.hand_out(alloc, script)
            }
        }
    }

    /// Takes back the plan of the section that was handed out last and was run. What it has copies of goes into the
    /// plan of the next section, which copies none of it again: the script's names, and the kernels that jobs have used
    /// so far, each with its code.
    pub fn take_back(&mut self, plan: Plan)
        ensures { IsTakenBack self.old plan self.new }
    {
        let Plan {
            names,
            kernels,
            codes,
            first,
            ..
        } = plan;
        self.names = names;
        self.planner.draft.kernels = kernels;
        self.planner.draft.codes = codes;
        self.spare = first;
    }

    /// The section that is planned, as a whole plan.
    pub(crate) fn hand_out(&mut self, alloc: Global, script: &Script) -> Result<Section, NoMemory>
        requires planned { (table : Columns) × (from : ℕ) × IsPlannedFrom self.old script.now table from }
        ensures section { (table : Columns) (from : ℕ) → IsPlannedFrom self.old script.now table from
            → IfOk result (IsNext self.new script.now table from) }
        ensures small_jobs { self.new.small_jobs ≡ self.old.small_jobs }
    {
        let test = self.test(script);
        let jobs_before = self.planner.world.jobs_before;
        let names = mem::replace(&mut self.names, NameTexts::new(alloc));
        let plan = finish(&mut self.planner, alloc, names)?;
        Ok(Section {
            plan,
            jobs_before,
            small_jobs: self.small_jobs,
            test,
        })
    }

    /// The test at which the section ends, or none at the script's end.
    fn test(&self, script: &Script) -> Option<Test>
        requires { (table : Columns) × (from : ℕ) × IsPlannedFrom self.now script.now table from }
        ensures { IsTestFor self.now.planner (slice_get script.now.statements.items self.now.at) result }
    {
        if self.at as usize >= script.statements.len() {
            return None;
        }
        match &script.statements[self.at as usize].act {
            Order::When {
                name,
                sign,
                value,
                ..
            } => Some(Test {
                at: reference_of(&self.planner, *name),
                sign: *sign,
                bound: *value,
            }),
            _ => unreachable!(),
        }
    }

    /// The section after a test is planned, by whether the test holds.
    fn resume(
        &mut self,
        alloc: Global,
        script: &Script,
        table: &Table,
        held: bool,
        cells: FlatMem,
    ) -> Result<(), NoMemory>
        requires at { (from : ℕ) × (carried : Cells) × (len : ℕ)
            × IsBetween self.old script.now (columns_of table.now) from carried len
            × IsOutcome script.now (columns_of table.now) from (Some held)
            × AreLeft cells carried len }
        ensures planned { OnOk result ((from : ℕ) (carried : Cells) (len : ℕ)
            → IsBetween self.old script.now (columns_of table.now) from carried len
            → IsOutcome script.now (columns_of table.now) from (Some held)
            → AreLeft cells carried len
            → IsPlannedFrom self.new script.now (columns_of table.now) from) }
        ensures small_jobs { self.new.small_jobs ≡ self.old.small_jobs }
    {
        begin(&mut self.planner, cells);
        let statement = &script.statements[self.at as usize];
        self.planner.world.passing = passed_after(&statement.act, held);
        match run(&mut self.planner, alloc, script, table, self.at + 1) {
            Ok(at) => {
                self.at = at;
                Ok(())
            }
            // The script's text stays within the limits, and with it whatever acts.
            Err(fault) => Err(memory_fault(fault)),
        }
    }
}

/// The one fault of a script within the limits.
fn memory_fault(fault: PlanFault) -> NoMemory
    requires { fault ≡ PlanFault.NoMemory }
{
    match fault {
        PlanFault::NoMemory => NoMemory,
        _ => unreachable!(),
    }
}

/// How many statements are passed by after a `when`.
fn passed_after(act: &Order, held: bool) -> u32
    ensures { result ≡ passed_after held act.now }
{
    match act {
        Order::When { count, .. } if !held => *count,
        Order::Array { .. }
        | Order::Column { .. }
        | Order::List { .. }
        | Order::Reference { .. }
        | Order::Map { .. }
        | Order::Stream { .. }
        | Order::Slice { .. }
        | Order::View { .. }
        | Order::Copy { .. }
        | Order::Set { .. }
        | Order::Add { .. }
        | Order::Put { .. }
        | Order::Remove { .. }
        | Order::Clear { .. }
        | Order::SetCapacity { .. }
        | Order::Schedule(_)
        | Order::Combine { .. }
        | Order::Complete { .. }
        | Order::CompleteAuto { .. }
        | Order::Dispose { .. }
        | Order::DisposeAuto { .. }
        | Order::Print { .. }
        | Order::Flush
        | Order::Frame
        | Order::When { .. } => 0,
    }
}

/// Where the reference of a name lies.
fn reference_of(planner: &Planner, name: u32) -> RefAt
    requires { (at : RefAt) × IsReferenceOf planner.now name at }
    ensures { IsReferenceOf planner.now name result }
{
    match planner.world.values[name as usize] {
        Value::Whole(number) => match planner.world.containers[number as usize].bind {
            Bind::Ref(at) => at,
            _ => unreachable!(),
        },
        _ => unreachable!(),
    }
}
