// Where the contents of a name lie, once a section was handed out.
ghost use Rattle.std.specs.Prelude.{◌≡◌, None, slice_get};
ghost use Rattle.safety_handle.specs.Checks.{is_current};
ghost use Rattle.safety_handle.specs.Entries.{state_of};
ghost use Rattle.plan_state.specs.Stands.{tag_of};
ghost use Rattle.frame_plan.specs.Bindings.{bind_in, bind_made};

use crate::sections::SectionBook;
use kernel_exec::Bind;
use plan_state::{Container, Planner, Value};
use safety_handle::{Blocked, Tag};

impl SectionBook {
    /// Where the contents of a name lie among the words that the section leaves which was handed out last: of a name
    /// of a whole container that isn't disposed.
    pub fn bind(&self, name: usize) -> Option<Bind>
        ensures { result ≡ bind_in self.now name }
    {
        match self.planner.world.values.get(name)? {
            Value::Whole(number) => bind_of(&self.planner, *number),
            Value::Dead | Value::Slice { .. } | Value::View { .. } | Value::Jobs(_) => None,
        }
    }
}

// The words of a container, by its number, while it isn't disposed.
fn bind_of(planner: &Planner, number: u32) -> Option<Bind>
    ensures { result ≡ bind_made planner.now (slice_get planner.now.world.containers.items number) }
{
    let container = planner.world.containers.get(number as usize)?;
    if is_alive(planner, container) {
        Some(container.bind)
    } else {
        None
    }
}

// Whether a container isn't disposed.
fn is_alive(planner: &Planner, container: &Container) -> bool
    ensures { result ≡ is_current (state_of planner.now.world.safety container.now.slot.0) (tag_of container.now None) }
{
    let tag = Tag {
        slot: container.slot,
        version: container.version,
        view: None,
    };
    match planner
        .world
        .safety
        .check_read(&tag, planner.world.jobs.nobody(), &planner.world.jobs)
    {
        Err(Blocked::Disposed) => false,
        Ok(()) | Err(Blocked::StaleView | Blocked::Pending(_)) => true,
    }
}
