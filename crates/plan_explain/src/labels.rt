//! What lines call a visit of a job.

ghost use Rattle.std.specs.Prelude.{◌≡◌};
ghost use Rattle.plan_explain.specs.Labels.{label_of};

use shop_base::{JobNo, Shop};

/// What lines call a visit: its job and, in a shop with recirculation, the step, counted from 0.
#[derive(Clone, Copy)]
pub struct Label {
    pub job: JobNo,
    pub step: Option<u32>,
}

impl Label {
    /// The label of the job's visit by this step.
    #[inline(always)]
    pub fn of(shop: &Shop, job: JobNo, step: u32) -> Label
        ensures { result ≡ label_of shop.now job step }
    {
        Label {
            job,
            step: shop.shown_step(step),
        }
    }
}
