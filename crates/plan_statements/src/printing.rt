// `print`: the contents are written when the operation is run.
ghost use Rattle.frame_ast.specs.declared.script.Order.TheVariants.{Print as PrintOf};
ghost use Rattle.plan_state.specs.Answers.{Answers, IsReadyFor};

use frame_core::Act;
use plan_state::{Answer, World};

/// One operation, if the script may read the container now.
pub fn print(world: &World, name: u32) -> Answer
    requires ready { IsReadyFor world.now (PrintOf name) }
    ensures answers { Answers world.now world.now (PrintOf name) result }
{
    match world.blocked(name, false) {
        Some(refusal) => Answer::Refused { name, refusal },
        None => {
            let at = world.bind(world.values[name as usize]);
            Answer::Does {
                name,
                act: Act::Print { at },
            }
        }
    }
}
