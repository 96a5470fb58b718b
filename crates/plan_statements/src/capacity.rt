// `setcapacity`: a list gets a range of another capacity.
ghost use Rattle.std.specs.Prelude.{◌≡◌, ◌+◌, ◌<◌, ◌≤◌, ℕ, true, IfOk, IfErr, vec_len};
ghost use Rattle.job_base.specs.declared.limits.TheConstants.{MOST_STATEMENTS, MOST_CREATED_WORDS};
ghost use Rattle.frame_ast.specs.declared.script.Order.TheVariants.{SetCapacity};
ghost use Rattle.kernel_exec.specs.declared.binds.Bind.TheVariants.{List as WholeList};
ghost use Rattle.slot_store.specs.Places.{is_taken};
ghost use Rattle.slot_store.specs.Stores.{peak_of, place_of};
ghost use Rattle.safety_handle.specs.Entries.{state_of};
ghost use Rattle.plan_state.specs.declared.state.Value.TheVariants.{Whole};
ghost use Rattle.frame_ast.specs.declared.script.Script.{Script};
ghost use Rattle.frame_ast.specs.Orders.{Table};
ghost use Rattle.plan_state.specs.Answers.{Answers, IsReadyFor, ExceedsIn};
ghost use Rattle.plan_statements.specs.Capacity.{IsWhole, IsList, IsMoved};

use crate::containers::is_full_for;
use frame_core::Act;
use job_base::limits::MOST_CREATED_WORDS;
use job_base::{NoMemory, Refusal, Span};
use kernel_exec::Bind;
use native_list::ListAt;
use plan_state::{Answer, Container, PlanFault, Value, World};

/// `setcapacity`. Where the new capacity is too low, the views are broken although it is refused.
pub fn set_capacity(world: &mut World, name: u32, cap: u32) -> Result<Answer, PlanFault>
    requires ready { IsReadyFor world.old (SetCapacity name cap) }
    ensures answers { IfOk result (Answers world.old world.new (SetCapacity name cap)) }
    ensures fails { IfErr result (λ fault. (line : ℕ) (script : Script) (table : Table)
        → ExceedsIn script table fault world.old (record { line = line; act = SetCapacity name cap })) }
{
    if let Some(refusal) = world.blocked(name, true) {
        return Ok(Answer::Refused { name, refusal });
    }
    if is_full_for(world, u64::from(cap) + 1) {
        let refusal = Refusal::StoreFull;
        return Ok(Answer::Refused { name, refusal });
    }
    let number = whole_of(world.values[name as usize]);
    let container = world.containers[number as usize];
    let at = list_of(container.bind);
    if cap < at.cap {
        world.safety.bump_view(container.slot);
        let refusal = Refusal::Range;
        return Ok(Answer::Refused { name, refusal });
    }
    if world.created + (cap + 1) > MOST_CREATED_WORDS {
        return Err(PlanFault::Words);
    }
    let to = move_list(world, number, container, cap)?;
    let from = Span {
        start: at.start,
        len: at.cap + 1,
    };
    let act = Act::Move { from, to };
    Ok(Answer::Does { name, act })
}

/// A list gets a range of another capacity, and its views are broken.
fn move_list(
    world: &mut World,
    number: u32,
    container: Container,
    cap: u32,
) -> Result<Span, NoMemory>
    requires number { number < vec_len world.old.containers }
    requires taken { is_taken (place_of world.old.store container.slot.0).state ≡ true }
    requires live { (state_of world.old.safety container.slot.0).live ≡ true }
    requires views { (state_of world.old.safety container.slot.0).view < MOST_STATEMENTS }
    requires low { peak_of world.old.store ≤ MOST_CREATED_WORDS }
    requires small { world.old.created + (cap + 1) ≤ MOST_CREATED_WORDS }
    ensures { IfOk result (IsMoved world.old world.new number container cap) }
{
    let Ok(to) = world.store.regrow(container.slot, cap + 1) else {
        return Err(NoMemory);
    };
    world.safety.bump_view(container.slot);
    world.containers[number as usize] = Container {
        bind: Bind::List(ListAt {
            start: to.start,
            cap,
        }),
        slot: container.slot,
        version: container.version,
        life: container.life,
        frame: container.frame,
        name: container.name,
        line: container.line,
    };
    world.created += cap + 1;
    Ok(to)
}

/// The container that a name stands for whole.
fn whole_of(value: Value) -> u32
    requires { IsWhole value }
    ensures { value ≡ Whole result }
{
    match value {
        Value::Whole(number) => number,
        _ => unreachable!(),
    }
}

/// The words of a list.
fn list_of(bind: Bind) -> ListAt
    requires { IsList bind }
    ensures { bind ≡ WholeList result }
{
    match bind {
        Bind::List(at) => at,
        _ => unreachable!(),
    }
}
