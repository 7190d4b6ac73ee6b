use plan_verifier::Judged;
use shop_base::Shaped;

/// A plan for the rest of a run, and the verdict on that rest.
#[derive(Drop)]
pub struct Improved {
    pub shaped: Shaped,
    pub verdict: Judged,
}
