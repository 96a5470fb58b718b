// `when`: whether it acts. The block of one that is refused is passed by.
ghost use Rattle.std.specs.Prelude.{◌<◌, vec_len};
ghost use Rattle.frame_ast.specs.declared.script.Order.TheVariants.{When as WhenOf};
ghost use Rattle.plan_state.specs.Accesses.{AreThere};
ghost use Rattle.plan_state.specs.Answers.{IsReadyFor};
ghost use Rattle.plan_statements.specs.Tests.{IsDecided, IsLatestRunning, IsTestRefusal};

use frame_ast::script::Sign;
use job_base::{JobId, Refusal};
use plan_state::{Answer, World};

/// What a `when` answers that is refused, whose block will be passed by; or none where it acts.
pub fn refuse_test(
    world: &mut World,
    name: u32,
    sign: Sign,
    value: i64,
    count: u32,
) -> Option<Answer>
    requires ready { IsReadyFor world.old (WhenOf name sign value count) }
    ensures decided { IsDecided world.old world.new (WhenOf name sign value count) result }
{
    match test_refusal(world, name) {
        None => None,
        Some(refusal) => {
            world.passing = count;
            Some(Answer::Refused { name, refusal })
        }
    }
}

/// Why the value of a name can't be tested now: its container is disposed, or a job isn't completed.
fn test_refusal(world: &World, name: u32) -> Option<Refusal>
    requires name { name < vec_len world.now.values }
    requires there { AreThere (vec_len world.now.containers) (vec_len world.now.handles) world.now.values.items }
    ensures { IsTestRefusal world.now name result }
{
    if world.is_disposed(name) {
        return Some(Refusal::Disposed);
    }
    match latest_running(world) {
        None => None,
        Some(job) => Some(Refusal::Busy(job)),
    }
}

/// The latest job that isn't completed.
fn latest_running(world: &World) -> Option<JobId>
    ensures { IsLatestRunning world.now.jobs result }
{
    let mut left = world.jobs.count();
    while left > 0 {
        let job = JobId(left);
        if !world.jobs.is_completed(job) {
            return Some(job);
        }
        left -= 1;
    }
    None
}
