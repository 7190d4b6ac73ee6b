//! Simulated annealing over the orders of the machines (Kirkpatrick, Gelatt and Vecchi, Science 220, 1983).

use crate::draws::Draws;
use crate::heat::Heat;
use crate::moves::Moves;
use crate::passing::Pass;
use crate::price::{Aim, Price};
use crate::timing::Part;
use crate::turning::{move_left, move_right};
use plan_net::{NONE, Net, count};
use shop_base::Moment;

/// In how many steps the temperature falls.
const PHASES: u64 = 256;

/// How many nodes are looked at.
const LOOKS: u64 = 20_000_000;

/// How many neighbours are tried at most, for each pair of operations.
const NEIGHBOURS: u64 = 50;

/// How many are drawn at most for each that may be tried.
const DRAWS: u64 = 4;

/// The logarithm of 2, in 1/65536.
const LOGARITHM: u64 = 45426;

/// How far the search is.
#[derive(Drop)]
struct Walk {
    draws: Draws,
    /// How hot the round is.
    heat: Heat,
    aim: Aim,
    /// The plan from which it goes on, and the best one that it has met.
    now: Price,
    least: Price,
    /// Whether that is better than the one that came in.
    found: bool,
    /// The temperature, in 1/65536.
    temperature: u64,
    /// How many neighbours were tried.
    tried: u64,
}

/// Searches from the plan of the net, and leaves the best plan that it meets in the net's kept sources. Whether that is
/// better than the one that came in.
pub(crate) fn anneal(
    net: &mut Net,
    pass: &mut Pass,
    moves: &mut Moves,
    draws: Draws,
    round: u32,
) -> bool {
    let all = Part {
        first: 0,
        last: last_place(net),
        limit: Moment::MAX,
    };
    if !pass.run(&net.spots, all) {
        return false;
    }
    pass.keep();
    let price = Price::of(&net.spans, &pass.rows);
    let heat = Heat::of(round, net.steps(), price.total > 0, net.recurs);
    let mut walk = Walk {
        draws,
        heat,
        aim: first_aim(heat),
        now: price,
        least: price,
        found: false,
        temperature: first_temperature(net, heat),
        tried: 0,
    };
    net.set_rests(walk.aim == Aim::Budgets);
    pass.find_tails(&net.spots, last_place(net));
    aim_anew(net, pass, &mut walk);
    run_phases(net, pass, moves, &mut walk);
    walk.found
}

/// Draws neighbours while the temperature falls.
fn run_phases(net: &mut Net, pass: &mut Pass, moves: &mut Moves, walk: &mut Walk) {
    let most = most_neighbours(net);
    let fall = walk.heat.fall();
    for phase in 1..PHASES + 1 {
        let looks = (LOOKS / PHASES).wrapping_mul(phase);
        run_phase(
            net,
            pass,
            moves,
            walk,
            looks,
            most.wrapping_mul(phase) / PHASES,
        );
        walk.temperature = walk.temperature.wrapping_mul(fall) >> 16;
    }
}

/// What is lessened at first.
fn first_aim(heat: Heat) -> Aim {
    match heat {
        Heat::Hot => Aim::Makespan,
        _ => Aim::Budgets,
    }
}

/// The temperature at the beginning, in 1/65536.
fn first_temperature(net: &Net, heat: Heat) -> u64 {
    mean_time(net).wrapping_mul(heat.beginning()) / 100
}

/// The last place in the order of the nodes.
fn last_place(net: &Net) -> u32 {
    count(net.spots.len()).wrapping_sub(1)
}

/// The mean time of a step, with the cleaning after it, in 1/65536.
fn mean_time(net: &Net) -> u64 {
    let mut sum = 0u64;
    for spot in &net.spots {
        if spot.back != NONE {
            sum = sum.wrapping_add(spot.lag);
        }
        sum = sum.wrapping_add(spot.clean);
    }
    sum.wrapping_mul(65536)
        .checked_div(net.steps())
        .unwrap_or(0)
}

/// The most neighbours that are tried: 50 times the square of the number of operations.
fn most_neighbours(net: &Net) -> u64 {
    NEIGHBOURS
        .wrapping_mul(net.steps())
        .wrapping_mul(net.steps())
}

/// Draws neighbours at one temperature until `looks` nodes were looked at or `neighbours` neighbours were tried in all.
/// One that is known to be past the limit isn't tried again.
fn run_phase(
    net: &mut Net,
    pass: &mut Pass,
    moves: &mut Moves,
    walk: &mut Walk,
    looks: u64,
    neighbours: u64,
) {
    let draws = neighbours.saturating_sub(walk.tried).wrapping_mul(DRAWS);
    for _ in 0..draws {
        let is_at_end = pass.looks.wrapping_add(moves.looks) >= looks || walk.tried >= neighbours;
        if is_at_end || pass.neighbours.count() == 0 {
            return;
        }
        let limit = drawn_limit(walk);
        let number = walk.draws.below(pass.neighbours.count());
        if pass.neighbours.is_past(number, limit) {
            pass.looks = pass.looks.wrapping_add(1);
        } else {
            walk.tried = walk.tried.wrapping_add(1);
            let least = try_neighbour(net, pass, moves, walk, number, limit);
            pass.neighbours.note(number, least);
        }
    }
}

/// Makes a neighbour, and goes on from there if it is within the limit. Else returns an estimate of what it weighs,
/// which is past the limit.
#[inline(never)]
fn try_neighbour(
    net: &mut Net,
    pass: &mut Pass,
    moves: &mut Moves,
    walk: &mut Walk,
    number: u32,
    limit: u64,
) -> u64 {
    move_job(net, pass, moves, number, limit);
    if moves.is_past() {
        moves.undo(net);
        return moves.least;
    }
    let part = Part {
        first: moves.first,
        last: moves.last,
        limit,
    };
    if pass.run(&net.spots, part) {
        pass.continue_pass(&net.spots);
        let price = Price::of(&net.spans, &pass.rows);
        if price.weight(walk.aim) <= limit {
            pass.keep();
            pass.find_tails(&net.spots, part.last);
            take(net, pass, walk, price);
            aim_anew(net, pass, walk);
            return 0;
        }
    }
    pass.undo();
    moves.undo(net);
    limit.wrapping_add(1)
}

/// What the next plan may weigh: as much as this one, and more the less likely the more it is.
fn drawn_limit(walk: &mut Walk) -> u64 {
    let drawn = walk.draws.halvings().wrapping_mul(LOGARITHM) >> 16;
    let more = walk.temperature.wrapping_mul(drawn) >> 32;
    walk.now.weight(walk.aim).wrapping_add(more)
}

/// Moves the job by which the neighbour differs.
fn move_job(net: &mut Net, pass: &mut Pass, moves: &mut Moves, number: u32, limit: u64) {
    let entry = pass.neighbours.entry(number);
    if number & 1 == 0 {
        move_left(moves, net, &pass.rows, entry, limit);
    } else {
        move_right(moves, net, &pass.rows, entry, limit);
    }
}

/// Notes where the search goes on from, and whether that is the best plan so far.
fn take(net: &mut Net, pass: &mut Pass, walk: &mut Walk, price: Price) {
    walk.now = price;
    if price.is_less(&walk.least) {
        walk.least = price;
        walk.found = true;
        net.save();
        pass.looks = pass.looks.wrapping_add(net.spots.len() as u64);
    }
}

/// Finds the arcs that may be turned round. Once the best plan is in time, or the most urgent job of a late one can't
/// be sooner, the makespan counts too.
fn aim_anew(net: &mut Net, pass: &mut Pass, walk: &mut Walk) {
    if walk.least.total == 0 {
        aim_at_makespan(net, pass, walk);
    }
    if walk.heat == Heat::Hot {
        pass.find_all_neighbours(net, walk.now.longest);
    } else {
        pass.find_neighbours(net, walk.now.leaving(walk.aim));
    }
    if pass.neighbours.count() == 0 {
        aim_at_makespan(net, pass, walk);
        pass.find_neighbours(net, walk.now.longest);
    }
}

/// Lets the makespan count from now on.
fn aim_at_makespan(net: &mut Net, pass: &mut Pass, walk: &mut Walk) {
    if walk.aim == Aim::Budgets {
        walk.aim = Aim::Makespan;
        net.set_rests(false);
        pass.find_tails(&net.spots, last_place(net));
    }
}
