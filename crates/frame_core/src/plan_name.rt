//! Names of plans, for types whose values all speak of one plan.
ghost use Rattle.frame_core.specs.declared.plan.Plan.{Plan};
ghost use Rattle.frame_core.specs.Empty.{no_plan};

use std::marker::Brand;

/// Names a plan, as the parameter of a type whose values all speak of one plan.
pub trait PlanName {
    ghost plan: { Plan };
}

impl PlanName for Brand {
    ghost plan = { no_plan };
}
