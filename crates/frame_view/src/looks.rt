// What stands in a script.
ghost use Rattle.std.specs.Prelude.{◌≡◌, slice_get};
ghost use Rattle.frame_view.specs.Stories.{is_schedule, args_by};

use frame_ast::script::{Arg, Order, Script};

pub(crate) fn is_schedule(act: &Order) -> bool
    ensures { result ≡ is_schedule act.now }
{
    matches!(act, Order::Schedule(_))
}

/// The arguments of the schedule at a place among the statements, and none where there is no schedule.
pub(crate) fn args_at(script: &Script, at: usize) -> &[Arg]
    ensures { result.now ≡ args_by (slice_get script.now.statements.items at) }
{
    match script.statements.get(at) {
        Some(statement) => {
            if let Order::Schedule(job) = &statement.act {
                &job.args
            } else {
                &[]
            }
        }
        None => &[],
    }
}
