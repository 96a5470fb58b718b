// The planner at a script's beginning, and how it goes from statement to statement.
ghost use Rattle.std.specs.Prelude.{Box, ◌≡◌, ◌+◌, ◌≤◌, ℕ, List, [], true, false, None, replicate, IfOk, IfErr, OnOk, length};
ghost use Rattle.std.specs.declared.alloc.Global.{Global};
ghost use Rattle.frame_ast.specs.declared.script.NewJob.{NewJob};
ghost use Rattle.frame_ast.specs.declared.script.Order.TheVariants.{Schedule};
ghost use Rattle.frame_ast.specs.declared.script.Script.{Script as File};
ghost use Rattle.frame_ast.specs.Accepted.{IsAccepted, is_when};
ghost use Rattle.frame_ast.specs.Orders.{Table as Columns};
ghost use Rattle.frame_ast.specs.States.{ScriptState};
ghost use Rattle.frame_plan.specs.Runs.{HasBegun, IsAtStatement, HasPassed, StopsAt, GoesPast, FailsAtPlace, HasRun, PassesOnce};
ghost use Rattle.plan_schedules.specs.Starting.{in_box};
ghost use Rattle.plan_state.specs.Steps.{StandsAt};
ghost use Rattle.plan_statements.specs.Tables.{columns_of};
ghost use Rattle.frame_plan.specs.Works.{works_by};

use crate::answers::answer;
use crate::small_jobs::{SmallJobs, works_of};
use frame_ast::script::{NewJob, Order, Script, Statement};
use frame_core::Op;
use job_base::NoMemory;
use job_handle::JobBook;
use plan_schedules::Gathered;
use plan_state::{Answer, Container, Draft, PlanFault, Planner, Value, World};
use safety_handle::SafetyBook;
use slot_store::SlotStore;
use std::alloc::Global;
use table_in::Table;

/// At the script's beginning.
pub(crate) fn at_start(
    alloc: Global,
    script: &Script,
    small_jobs: SmallJobs,
) -> Result<Planner, NoMemory>
    requires accepted { IsAccepted script.now }
    ensures begun { IfOk result (λ p. (table : Columns) → HasBegun script.now table p) }
    ensures works { IfOk result (λ p. p.world.works.items ≡ works_by small_jobs script.now.kernels.items) }
{
    let mut world = World {
        values: dead_values(alloc, script.names.len())?,
        handles: Vec::new(alloc),
        containers: Vec::new(alloc),
        temps: Vec::new(alloc),
        tempjobs: Vec::new(alloc),
        overdue: 0,
        frame: 0,
        jobs: JobBook::new(alloc),
        jobs_before: 0,
        safety: SafetyBook::new(alloc)?,
        store: SlotStore::new(alloc)?,
        created: 0,
        passing: 0,
        works: works_of(alloc, script, small_jobs)?,
    };
    let mut draft = Draft::none(alloc);
    draft.copies_of = no_copies(alloc, script.kernels.len())?;
    draft.guards_of = no_copies(alloc, script.kernels.len())?;
    make_room(&mut world.containers, &mut draft.ops, script)?;
    Ok(Planner { world, draft })
}

/// Room for what the statements of a script without kernels add. No job ends a segment there, so both lists may become
/// as long as the script, and one without room is moved each time that it grows.
fn make_room(
    containers: &mut Vec<Container>,
    ops: &mut Vec<Op>,
    script: &Script,
) -> Result<(), NoMemory>
    ensures containers { containers.new.items ≡ containers.old.items }
    ensures ops { ops.new.items ≡ ops.old.items }
{
    if script.kernels.is_empty() {
        containers.reserve(script.statements.len())?;
        ops.reserve(script.statements.len())?;
    }
    Ok(())
}

/// Goes on from a place among the statements to the next `when` that acts, or to the end, and answers where it is.
pub(crate) fn run(
    planner: &mut Planner,
    alloc: Global,
    script: &Script,
    table: &Table,
    from: u32,
) -> Result<u32, PlanFault>
    requires accepted { IsAccepted script.now }
    requires stands { (begun : ScriptState) × (found : List ℕ)
        × StandsAt planner.old script.now (columns_of table.now) begun from found }
    requires inside { from ≤ length script.now.statements.items }
    ensures ran { IfOk result (λ to. (begun : ScriptState) (found : List ℕ)
        → StandsAt planner.old script.now (columns_of table.now) begun from found
        → HasRun script.now (columns_of table.now) planner.old planner.new begun from found to) }
    ensures fails { IfErr result (λ fault. PassesOnce fault script.now (columns_of table.now)) }
{
    let mut gathered = Gathered::none(alloc);
    let mut at = from;
    while (at as usize) < script.statements.len() {
        let statement = &script.statements[at as usize];
        if !pass(planner, alloc, script, table, statement, &mut gathered)? {
            return Ok(at);
        }
        at += 1;
    }
    Ok(at)
}

/// Goes on by one statement. The answer is false at a `when` that acts: there it stays as it was.
fn pass(
    planner: &mut Planner,
    alloc: Global,
    script: &Script,
    table: &Table,
    statement: &Statement,
    gathered: &mut Gathered,
) -> Result<bool, PlanFault>
    requires { IsAtStatement script.now (columns_of table.now) planner.old statement.now }
    ensures passed { IfOk result (λ went. went ≡ true
        → HasPassed script.now (columns_of table.now) planner.old planner.new statement.now) }
    ensures stops { IfOk result (λ went. went ≡ false
        → StopsAt script.now (columns_of table.now) planner.old statement.now) }
    ensures past { IfOk result (λ went. went ≡ true
        → GoesPast script.now (columns_of table.now) planner.old statement.now) }
    ensures stays { IfOk result (λ went. went ≡ false → planner.new ≡ planner.old) }
    ensures fails { IfErr result (λ fault.
        FailsAtPlace script.now (columns_of table.now) fault planner.old statement.now) }
{
    if planner.world.passing > 0 {
        planner.world.passing -= 1;
        return Ok(true);
    }
    if let Order::When { .. } = &statement.act {
        return pass_test(planner, alloc, statement);
    }
    act(planner, alloc, script, table, statement, gathered)?;
    Ok(true)
}

/// Goes on by a `when`. The answer is false where it acts: there the planner stays as it was.
// Inlined, what it answers would be cleared for every other statement too.
#[inline(never)]
fn pass_test(planner: &mut Planner, alloc: Global, statement: &Statement) -> Result<bool, PlanFault>
    requires at { (script : File) × (columns : Columns) × IsAtStatement script columns planner.old statement.now }
    requires acts { planner.old.world.passing ≡ 0 }
    requires test { is_when statement.now.act ≡ true }
    ensures passed { (script : File) (columns : Columns) → IfOk result (λ went. went ≡ true
        → HasPassed script columns planner.old planner.new statement.now) }
    ensures stops { (script : File) (columns : Columns) → IfOk result (λ went. went ≡ false
        → StopsAt script columns planner.old statement.now) }
    ensures past { (script : File) (columns : Columns) → IfOk result (λ went. went ≡ true
        → GoesPast script columns planner.old statement.now) }
    ensures stays { IfOk result (λ went. went ≡ false → planner.new ≡ planner.old) }
    ensures fails { (script : File) (columns : Columns) → IfErr result (λ fault.
        FailsAtPlace script columns fault planner.old statement.now) }
{
    match &statement.act {
        Order::When {
            name,
            sign,
            value,
            count,
        } => match plan_statements::refuse_test(&mut planner.world, *name, *sign, *value, *count) {
            None => Ok(false),
            Some(answer) => {
                planner.draft.take(alloc, statement.line, answer)?;
                Ok(true)
            }
        },
        _ => unreachable!(),
    }
}

/// What a statement does that is neither passed by nor a `when`: it changes what statements see, and the draft takes
/// what it answers.
fn act(
    planner: &mut Planner,
    alloc: Global,
    script: &Script,
    table: &Table,
    statement: &Statement,
    gathered: &mut Gathered,
) -> Result<(), PlanFault>
    requires at { IsAtStatement script.now (columns_of table.now) planner.old statement.now }
    requires acts { planner.old.world.passing ≡ 0 }
    requires other { is_when statement.now.act ≡ false }
    ensures passed { OnOk result (HasPassed script.now (columns_of table.now) planner.old planner.new statement.now) }
    ensures fails { IfErr result (λ fault.
        FailsAtPlace script.now (columns_of table.now) fault planner.old statement.now) }
{
    if let Order::Schedule(job) = &statement.act {
        return act_schedule(planner, alloc, script, statement, job, gathered);
    }
    // By `?` an answer would be copied once more, here and below.
    match answer(&mut planner.world, alloc, script, table, statement) {
        // Told here, since many statements leave nothing to do.
        Ok(Answer::Nothing) => Ok(()),
        Ok(answer) => Ok(planner.draft.take(alloc, statement.line, answer)?),
        Err(fault) => Err(fault),
    }
}

/// What a schedule does. Inlined, what it works with would be cleared for every other statement too.
#[inline(never)]
fn act_schedule(
    planner: &mut Planner,
    alloc: Global,
    script: &Script,
    statement: &Statement,
    job: &NewJob,
    gathered: &mut Gathered,
) -> Result<(), PlanFault>
    requires at { (columns : Columns) × IsAtStatement script.now columns planner.old statement.now }
    requires acts { planner.old.world.passing ≡ 0 }
    // The statement has its job in a box, whichever that is.
    requires schedules { (home : Box NewJob Global) × (statement.now.act ≡ Schedule (in_box home job.now)) }

    ensures passed { (columns : Columns)
        → OnOk result (HasPassed script.now columns planner.old planner.new statement.now) }
    ensures fails { (columns : Columns) → IfErr result (λ fault.
        FailsAtPlace script.now columns fault planner.old statement.now) }
{
    match plan_schedules::schedule(&mut planner.world, alloc, script, job, gathered) {
        Ok(answer) => Ok(
            planner
                .draft
                .take_job(alloc, script, statement.line, answer)?,
        ),
        Err(fault) => Err(fault),
    }
}

/// So many names stand for nothing yet.
fn dead_values(alloc: Global, count: usize) -> Result<Vec<Value>, NoMemory>
    ensures { IfOk result (λ v. v.items ≡ replicate count Value.Dead) }
{
    Ok(vec![in alloc; Value::Dead; count]?)
}

/// The plan has a copy of none of so many kernels yet.
pub(crate) fn no_copies(alloc: Global, count: usize) -> Result<Vec<Option<u32>>, NoMemory>
    ensures { IfOk result (λ v. v.items ≡ replicate count None) }
{
    Ok(vec![in alloc; None; count]?)
}
