//! The place of a visit in its machine's order, found without lookups: each job stands there for its visits in turn.

ghost use Rattle.std.specs.Prelude.{◌≡◌, ◌≤◌, length};
ghost use Rattle.shop_base.specs.Plan.{Visits, Stands};
ghost use Rattle.alt_graph.specs.Turns.{steps_on};

use shop_base::{MachineNo, Node, Shaped, Step};

/// The place of the visit in the order of the machine.
pub(crate) fn place_of(shaped: &Shaped, machine: MachineNo, visit: Node) -> usize
    requires { Visits shaped.now visit.job visit.place machine }
    ensures { Stands shaped.now machine result visit.job visit.place }
{
    let route = shaped.route_of(visit.job);
    let mut earlier = visits_before(route, machine, visit.place as usize);
    let order = shaped.order_of(machine);
    for place in 0..order.len() {
        if order[place] == visit.job {
            if earlier == 0 {
                return place;
            }
            earlier -= 1;
        }
    }
    unreachable!()
}

/// How many of the first steps of a route are on a machine.
fn visits_before(route: &[Step], machine: MachineNo, steps: usize) -> usize
    requires { steps ≤ length route.now }
    ensures { result ≡ steps_on route.now machine steps }
{
    let mut visits = 0;
    for step in 0..steps {
        if route[step].machine == machine {
            visits += 1;
        }
    }
    visits
}
