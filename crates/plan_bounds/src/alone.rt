//! A job alone in the cell.

ghost use Rattle.std.specs.Prelude.{◌≡◌, ◌^◌, ◌<◌, ◌≤◌};
ghost use Rattle.shop_base.specs.Plan.{jobs};
ghost use Rattle.plan_bounds.specs.Bounds.{times_of, out_alone};

use shop_base::limits::MAX_MACHINES;
use shop_base::{JobNo, Moment, Shaped};

/// The least moment, in whole time units, at which a job that is alone in the cell can leave it: the job has made so
/// many moves, and is ready for its next one at the moment `at`. Each visit to a machine begins at least the machine's
/// cleaning time after the job has left it before, as far as it leaves it from `at` on.
pub fn out_alone(shaped: &Shaped, job: JobNo, made: u32, at: Moment) -> Moment
    requires job { job < jobs shaped.now }
    requires in_range { at ≤ 2 ^ 63 }
    ensures { result ≡ out_alone (times_of shaped.now) job made at }
{
    let route = shaped.route_of(job);
    let mut free = [0; MAX_MACHINES as usize];
    let mut ready = at;
    for place in made as usize..route.len() {
        let step = route[place];
        let enters = ready.max(free[step.machine as usize]);
        if place > 0 {
            let left = route[place - 1].machine;
            free[left as usize] = enters + shaped.clean_of(left);
        }
        ready = enters + step.nominal;
    }
    ready
}
