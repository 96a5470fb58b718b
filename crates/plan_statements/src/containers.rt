// A new container: its words, what they are filled with, and what the books are told of it.
ghost use Rattle.std.specs.Prelude.{◌≡◌, ◌+◌, ◌-◌, ◌<◌, ◌≤◌, ◌^◌, ◌↔◌, [], ◌∷◌, option_map, get_or, map, OnOk, IfOk, IfErr, IfSome, IsTrue, vec_len};
ghost use Rattle.job_base.specs.declared.limits.TheConstants.{MOST_LIVE_WORDS, MOST_CREATED_WORDS};
ghost use Rattle.job_base.specs.declared.Refusal.TheVariants.{StoreFull};
ghost use Rattle.kernel_exec.specs.Binds.{end_of};
ghost use Rattle.slot_store.specs.Stores.{peak_of, live_words_of, slots_in_use};
ghost use Rattle.plan_state.specs.declared.answer.Answer.TheVariants.{Refused as RefusedAs};
ghost use Rattle.plan_state.specs.declared.state.Value.TheVariants.{Dead};
ghost use Rattle.plan_state.specs.Accesses.{IsRenamed};
ghost use Rattle.plan_statements.specs.Making.{FailsToTake, HasLife, IsEntered, TakesUnlessFull, elements_of};

use frame_ast::script::{Life, Script};
use job_base::limits::{MOST_CREATED_WORDS, MOST_LIVE_WORDS};
use job_base::{NoMemory, Refusal};
use kernel_exec::Bind;
use plan_state::{Answer, Container, PlanFault, Value, World};
use slot_store::Taken;
use std::alloc::Global;

/// Words for a new container, or none where the store is full: then the statement is refused.
pub(crate) fn take_words(world: &mut World, len: u64) -> Result<Option<Taken>, PlanFault>
    requires low { peak_of world.old.store ≤ MOST_CREATED_WORDS }
    requires slots { slots_in_use world.old.store < 2 ^ 32 - 1 }
    ensures taken { IfOk result (TakesUnlessFull world.old world.new len) }
    ensures fails { IfErr result (λ fault. FailsToTake fault world.old len) }
{
    if is_full_for(world, len) {
        return Ok(None);
    }
    if u64::from(world.created) + len > u64::from(MOST_CREATED_WORDS) {
        return Err(PlanFault::Words);
    }
    // It isn't full, so a fault is want of memory.
    match world.store.take(len as u32) {
        Ok(taken) => {
            world.created += len as u32;
            Ok(Some(taken))
        }
        Err(_) => Err(PlanFault::NoMemory),
    }
}

/// Whether so many words more are too many live ones.
pub(crate) fn is_full_for(world: &World, len: u64) -> bool
    ensures { IsTrue result ↔ (MOST_LIVE_WORDS < live_words_of world.now.store + len) }
{
    len > u64::from(MOST_LIVE_WORDS - world.store.live_words())
}

/// What is answered where the store is full: the statement is refused, and its name stands for nothing.
pub(crate) fn refuse_full(world: &mut World, name: u32) -> Answer
    requires { name < vec_len world.old.values }
    ensures answers { result ≡ RefusedAs name StoreFull }
    ensures renames { IsRenamed world.old world.new name Dead }
{
    world.set_value(name, Value::Dead);
    Answer::Refused {
        name,
        refusal: Refusal::StoreFull,
    }
}

/// A copy of one of the script's literals, where the array has one.
pub(crate) fn copy_literal(
    values: Option<u32>,
    script: &Script,
) -> Result<Option<Vec<i64>>, NoMemory>
    requires there { IfSome values (λ n. n < vec_len script.now.literals) }
    ensures { IfOk result (λ copy. elements_of copy
        ≡ option_map (λ n. get_or (map (λ v. v.items) script.now.literals.items) n []) values) }
{
    match values {
        None => Ok(None),
        Some(number) => Ok(Some(script.literals[number as usize].clone()?)),
    }
}

/// A value alone, where the reference has one.
pub(crate) fn one_value(alloc: Global, value: Option<i64>) -> Result<Option<Vec<i64>>, NoMemory>
    ensures { IfOk result (λ one. elements_of one ≡ option_map (λ z. z ∷ []) value) }
{
    match value {
        None => Ok(None),
        Some(value) => Ok(Some(vec![in alloc; value]?)),
    }
}

/// A copy of a column, where there is one.
pub(crate) fn copy_column(
    alloc: Global,
    values: Option<&[i64]>,
) -> Result<Option<Vec<i64>>, NoMemory>
    ensures { IfOk result (λ copy. elements_of copy ≡ option_map (λ s. s.now) values.entry) }
{
    match values {
        None => Ok(None),
        Some(values) => Ok(Some(values.to_vec(alloc)?)),
    }
}

/// A container whose words were taken becomes known by its name, and to the books.
pub(crate) fn enter(
    world: &mut World,
    line: u32,
    name: u32,
    life: Life,
    taken: Taken,
    bind: Bind,
) -> Result<(), NoMemory>
    requires name { name < vec_len world.old.values }
    requires few { vec_len world.old.containers < 2 ^ 32 }
    requires small { end_of bind < 2 ^ 31 }
    ensures { OnOk result (IsEntered world.old world.new line name life taken bind) }
{
    let number = world.containers.len() as u32;
    world.safety.enroll(taken.slot, taken.version)?;
    world.containers.push(Container {
        bind,
        slot: taken.slot,
        version: taken.version,
        life,
        frame: world.frame,
        name,
        line,
    })?;
    note_life(world, life, number)?;
    world.set_value(name, Value::Whole(number));
    Ok(())
}

/// A container that ends with its frame, or is to be reported, is noted as such.
fn note_life(world: &mut World, life: Life, number: u32) -> Result<(), NoMemory>
    ensures { OnOk result (HasLife world.old world.new life number) }
{
    match life {
        Life::Temp => world.temps.push(number)?,
        Life::TempJob => world.tempjobs.push(number)?,
        Life::Persistent => {}
    }
    Ok(())
}
