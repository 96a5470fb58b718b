// Who has a part of a stage.
ghost use Rattle.std.specs.Prelude.{◌≡◌, IfErr, IfOk, IfSome};
ghost use Rattle.frame_stage.specs.Stages.{IsShared, stage_of, stage_of_part};

use crate::stage::Stage;
use std::alloc::Global;
use std::sync::Arc;

/// A helper's part of a stage. The stage has a box of its own within, so that it moves from hold to hold by its
/// pointer, and isn't lost where memory isn't found.
pub type Part = Arc<Box<Stage>, Global>;

/// A section's own hold of its stage.
#[derive(Drop)]
pub enum Hold {
    /// Nobody else had a part of it yet.
    Alone(Box<Stage>),
    /// Each helper has a part of it.
    Shared(Part),
}

impl Hold {
    /// The stage.
    pub fn stage(&self) -> &Stage
        ensures { result.now ≡ stage_of self.now }
    {
        match self {
            Hold::Alone(stage) => &**stage,
            Hold::Shared(stage) => &***stage,
        }
    }

    /// A part of it for a helper. It is shared from then on.
    pub fn share(self, alloc: Global) -> (Hold, Option<Part>)
        ensures stage { stage_of result.0 ≡ stage_of self }
        ensures part { IfSome result.1 (λ part. stage_of_part part ≡ stage_of self) }
    {
        let shared = match self {
            Hold::Shared(stage) => stage,
            Hold::Alone(stage) => match Arc::new(alloc, stage) {
                Ok(stage) => stage,
                Err(failed) => return (Hold::Alone(failed.value), None),
            },
        };
        match Arc::try_clone(&shared) {
            Ok(part) => (Hold::Shared(shared), Some(part)),
            Err(_) => (Hold::Shared(shared), None),
        }
    }

    /// The stage, where no helper has a part of it, or has one any more.
    pub fn take(self) -> Result<Stage, Hold>
        ensures stage { IfOk result (λ stage. stage ≡ stage_of self) }
        ensures same { IfErr result (λ hold. hold ≡ self) }
        ensures shared { IfErr result (λ _. IsShared self) }
    {
        match self {
            Hold::Alone(stage) => Ok(Box::into_inner(stage)),
            Hold::Shared(stage) => match Arc::try_unwrap(stage) {
                Ok(stage) => Ok(Box::into_inner(stage)),
                Err(stage) => Err(Hold::Shared(stage)),
            },
        }
    }
}
