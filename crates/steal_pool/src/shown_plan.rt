// A plan behind a type parameter.
ghost use Rattle.std.specs.Prelude.{◌≡◌};
ghost use Rattle.frame_core.specs.declared.plan.Plan.{Plan};

use frame_core::Plan;

/// What shows a plan: the plan itself. A run knows its plan by a type parameter of this kind, which is `Sync`.
///
/// That threads may share a plan goes through all the trees of its kernels. Where threads are started, among all that
/// they are handed, the checker can't show it of the plan's own type within its limits; of a parameter it knows it. So
/// it is shown where a run is called, and [`may_be_shared`] shows that it can be.
pub trait ShowsPlan {
    ghost shown: { Self → Plan };

    fn plan(&self) -> &Plan
        ensures { result.now ≡ shown self.now };
}

impl ShowsPlan for Plan {
    ghost shown = { λ plan. plan };

    fn plan(&self) -> &Plan {
        self
    }
}

fn share<P: ShowsPlan + Sync>(_plan: &P) {}

/// A plan may be shared by threads. It does nothing.
pub fn may_be_shared(plan: &Plan) {
    share(plan);
}
