// The statements that change what a container holds: `set`, `add`, `put`, `remove` and `clear`. Whether its contents
// allow the change is seen when the operation is run. The views of a list are broken in either case.
ghost use Rattle.std.specs.Prelude.{◌≡◌, ◌<◌, vec_len};
ghost use Rattle.frame_ast.specs.declared.script.Order.TheVariants.{Set as SetTo, Add as AddIn, Put as PutIn, Remove as RemoveIn, Clear as ClearAll};
ghost use Rattle.plan_laws.specs.Accessing.{add_act};
ghost use Rattle.plan_state.specs.Stands.{IsThere};
ghost use Rattle.plan_state.specs.Answers.{Answers, IsReadyFor};
ghost use Rattle.plan_statements.specs.Views.{list_slot, slot_by, IsBreakable, IsBroken};

use frame_core::Act;
use kernel_exec::Bind;
use plan_state::{Answer, Container, Value, World};
use slot_store::Slot;

/// `set`, of an element or of a reference
pub fn set(world: &World, name: u32, at: Option<i64>, value: i64) -> Answer
    requires ready { IsReadyFor world.now (SetTo name at value) }
    ensures answers { Answers world.now world.now (SetTo name at value) result }
{
    match world.blocked(name, true) {
        Some(refusal) => Answer::Refused { name, refusal },
        None => {
            let words = world.bind(world.values[name as usize]);
            let i = at.unwrap_or(0);
            Answer::Does {
                name,
                act: Act::Set {
                    at: words,
                    i,
                    v: value,
                },
            }
        }
    }
}

/// `add`, to a list or to a map
pub fn add(world: &mut World, name: u32, first: i64, second: Option<i64>) -> Answer
    requires ready { IsReadyFor world.old (AddIn name first second) }
    ensures answers { Answers world.old world.new (AddIn name first second) result }
{
    match world.blocked(name, true) {
        Some(refusal) => Answer::Refused { name, refusal },
        None => {
            let value = world.values[name as usize];
            let words = world.bind(value);
            break_views(world, value);
            Answer::Does {
                name,
                act: addition(words, first, second),
            }
        }
    }
}

/// `put`, of a key that a map may have already
pub fn put(world: &World, name: u32, key: i64, value: i64) -> Answer
    requires ready { IsReadyFor world.now (PutIn name key value) }
    ensures answers { Answers world.now world.now (PutIn name key value) result }
{
    match world.blocked(name, true) {
        Some(refusal) => Answer::Refused { name, refusal },
        None => {
            let words = world.bind(world.values[name as usize]);
            Answer::Does {
                name,
                act: Act::Put {
                    at: words,
                    k: key,
                    v: value,
                },
            }
        }
    }
}

/// `remove`, from a list or from a map
pub fn remove(world: &mut World, name: u32, at: i64) -> Answer
    requires ready { IsReadyFor world.old (RemoveIn name at) }
    ensures answers { Answers world.old world.new (RemoveIn name at) result }
{
    match world.blocked(name, true) {
        Some(refusal) => Answer::Refused { name, refusal },
        None => {
            let value = world.values[name as usize];
            let words = world.bind(value);
            break_views(world, value);
            Answer::Does {
                name,
                act: Act::Remove { at: words, i: at },
            }
        }
    }
}

/// `clear`, of a list, a map or a stream
pub fn clear(world: &mut World, name: u32) -> Answer
    requires ready { IsReadyFor world.old (ClearAll name) }
    ensures answers { Answers world.old world.new (ClearAll name) result }
{
    match world.blocked(name, true) {
        Some(refusal) => Answer::Refused { name, refusal },
        None => {
            let value = world.values[name as usize];
            let words = world.bind(value);
            break_views(world, value);
            Answer::Does {
                name,
                act: Act::Clear { at: words },
            }
        }
    }
}

/// The views of the list that a value stands for are broken, where it stands for a list.
fn break_views(world: &mut World, value: Value)
    requires there { IsThere (vec_len world.old.containers) (vec_len world.old.handles) value }
    requires breakable { IsBreakable world.old.safety (list_slot world.old.containers.items value) }
    ensures { IsBroken world.old world.new value }
{
    if let Some(slot) = list_slot(world, value) {
        world.safety.bump_view(slot);
    }
}

/// The slot of the list that a value stands for.
fn list_slot(world: &World, value: Value) -> Option<Slot>
    requires there { IsThere (vec_len world.now.containers) (vec_len world.now.handles) value }
    ensures { result ≡ list_slot world.now.containers.items value }
{
    match value {
        Value::Whole(number) => slot_of(world.containers[number as usize]),
        Value::Dead | Value::Slice { .. } | Value::View { .. } | Value::Jobs(_) => None,
    }
}

/// The slot of a container that is a list.
fn slot_of(container: Container) -> Option<Slot>
    ensures { result ≡ slot_by container.bind container.slot }
{
    match container.bind {
        Bind::List(_) => Some(container.slot),
        Bind::Int(_)
        | Bind::Array { .. }
        | Bind::View { .. }
        | Bind::Ref(_)
        | Bind::Map(_)
        | Bind::Stream { .. } => None,
    }
}

/// What `add` does to words: a list has no keys.
fn addition(at: Bind, first: i64, second: Option<i64>) -> Act
    ensures { result ≡ add_act first second at }
{
    match second {
        None => Act::AddTo { at, k: 0, v: first },
        Some(value) => Act::AddTo {
            at,
            k: first,
            v: value,
        },
    }
}
