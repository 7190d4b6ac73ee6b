//! The worked examples: small plans computed on the definitions show that these mean what they say.
//!
//! Each function has an empty body and a contract of such facts. The plans and lists of events are written out in
//! `specs/Examples.antt`, the lists of nodes in the contracts. The last function states the limits.

ghost use Rattle.std.specs.Prelude.{◌≡◌, ℕ, ◌≤◌, List, [], ◌∷◌, ◌++◌, take, drop, true};
ghost use Rattle.shop_base.specs.declared.limits.TheConstants.{MAX_JOBS, MAX_MACHINES};
ghost use Rattle.shop_base.specs.declared.limits.TheConstants.{MAX_NOMINAL, MAX_CLEAN, MAX_RELEASE, MAX_MOMENT};
ghost use Rattle.shop_base.specs.declared.node.Node.{Node};
ghost use Rattle.shop_base.specs.Plan.{PlannedShop, IsWellShaped};
ghost use Rattle.shop_base.specs.Cell.{Cell, start, since, ready};
ghost use Rattle.shop_base.specs.Cell.{IsOn, IsFree, IsGone};
ghost use Rattle.shop_base.specs.Activity.{Arrival, Operation, Cleaning, GoesOn};
ghost use Rattle.shop_base.specs.Report.{CanReport};
ghost use Rattle.shop_base.specs.Move.{source, CanMove, CanObey, KeepsPlan};
ghost use Rattle.shop_base.specs.declared.move_order.Spot.TheVariants.{Out, At};
ghost use Rattle.shop_base.specs.Run.{Moved, IsRun, ends_in, IsAtRest, IsStuck};
ghost use Rattle.shop_base.specs.Controlled.{IsStep, IsControlledRun};
ghost use Rattle.shop_base.specs.Punctual.{IsPunctual, ArePunctual, AreExact};
ghost use Rattle.shop_base.specs.Ends.{HasEnded, IsOutByBudget, IsInTime};
ghost use Rattle.shop_base.specs.Ends.{stated_number, reports_in, moves_in};
ghost use Rattle.shop_base.specs.Graph.{node, leaving, Arc, HasArc, Path, IsSimpleCycle};
ghost use Rattle.shop_base.specs.Graph.{RanksRise, MomentsFit, MeetBudgets, IsSchedule, IsSerial};
ghost use Rattle.shop_base.specs.Ahead.{HoldsUp, PathAhead, GoesOnTo};
ghost use Rattle.shop_base.specs.Within.{AreByTheirOwn};
ghost use Rattle.shop_base.specs.Deadlines.{AreDeadlines};
ghost use Rattle.shop_base.specs.Examples.{in_series, with_cleaning, with_room, with_releases};
ghost use Rattle.shop_base.specs.Examples.{crossed, in_flow, in_ring, rinsing, instant};
ghost use Rattle.shop_base.specs.Examples.{arrive, finish, tidy, go, exchange};
ghost use Rattle.shop_base.specs.Examples.{series_moments, series_ranks, cleaned_moments};
ghost use Rattle.shop_base.specs.Examples.{released_moments, crossed_moments};
ghost use Rattle.shop_base.specs.Examples.{series_reports, series_log, series_after, series_end};
ghost use Rattle.shop_base.specs.Examples.{late_reports, late_log, late_after, late_end};
ghost use Rattle.shop_base.specs.Examples.{waiting_reports, waiting_log, waiting_after, waiting_end};
ghost use Rattle.shop_base.specs.Examples.{crossed_reports, crossed_log, crossed_end};
ghost use Rattle.shop_base.specs.Examples.{flow_reports, flow_log, flow_after, flow_end, flow_path};
ghost use Rattle.shop_base.specs.Examples.{rinsing_moments, rinsing_ranks};
ghost use Rattle.shop_base.specs.Examples.{rinsing_reports, rinsing_log, rinsing_after, rinsing_end};
ghost use Rattle.shop_base.specs.Examples.{cleaned_reports, cleaned_log, cleaned_after, cleaned_end};
ghost use Rattle.shop_base.specs.Examples.{room_moments, slow_reports, slow_log, slow_after, slow_end};
ghost use Rattle.shop_base.specs.Examples.{hasty_reports, hasty_log, hasty_end};
ghost use Rattle.shop_base.specs.Examples.{released_reports, released_log, released_end};
ghost use Rattle.shop_base.specs.Examples.{refused_reports, refused_log, refused_after, refused_end};
ghost use Rattle.shop_base.specs.Examples.{instant_reports, instant_log, instant_after, instant_end};

/// A run of two jobs, written out event by event, is the controlled run of its reports. At some of its events it is
/// said who holds a machine, what is due when, and when each job is gone.
pub fn two_jobs_in_series_run()
    ensures shaped { IsWellShaped in_series }
    ensures run { IsRun in_series series_log }
    ensures controlled { IsControlledRun in_series series_reports series_log series_end }
    ensures punctual { ArePunctual in_series (start in_series) series_log }
    ensures early { AreExact in_series (start in_series) series_log → ⊥ }
    ensures first_holder { IsOn in_series (series_after 2) 0 0 0 }
    ensures first_due { GoesOn in_series (series_after 2) (Operation 0 0) 3 }
    ensures second_awaited { GoesOn in_series (series_after 2) (Arrival 1) 0 }
    ensures second_ready { ready (series_after 3) 1 ≡ true }
    ensures second_waits { IsAtRest in_series (series_after 3) }
    ensures partial { IsControlledRun in_series (take 2 series_reports) (take 3 series_log) (series_after 3) }
    ensures unfinished { HasEnded in_series (series_after 3) → ⊥ }
    ensures reports { (stated_number in_series ≡ 6) × (reports_in series_log ≡ 6) }
    ensures ended { HasEnded in_series series_end }
    ensures first_gone { since series_end 0 ≡ 4 }
    ensures second_gone { since series_end 1 ≡ 9 }
    ensures first_out { IsOutByBudget in_series series_end 0 }
    ensures second_out { IsOutByBudget in_series series_end 1 }
    ensures last { series_end.last ≡ 9 }
{}

/// An order with another source or target is impossible. So is one at a moment that is past or over the latest, and
/// one for a job that isn't ready; one at a later moment is possible. A job that is gone, or isn't of the shop, has
/// no source on a machine.
pub fn an_order_names_just_its_move()
    ensures gone { source in_series series_end 0 ≡ Out }
    ensures absent { source in_series series_end 2 ≡ Out }
    ensures right { CanObey in_series (series_after 4) (go 2 0 (At 0) (At 1)) }
    ensures later { CanObey in_series (series_after 4) (go 3 0 (At 0) (At 1)) }
    ensures past { CanObey in_series (series_after 4) (go 1 0 (At 0) (At 1)) → ⊥ }
    ensures past_the_latest { CanObey in_series (series_after 4) (go 1_000_000_000_001 0 (At 0) (At 1)) → ⊥ }
    ensures other_source { CanObey in_series (series_after 4) (go 2 0 (At 1) (At 1)) → ⊥ }
    ensures other_target { CanObey in_series (series_after 4) (go 2 0 (At 0) Out) → ⊥ }
    ensures not_ready { CanObey in_series (series_after 2) (go 2 0 (At 0) (At 1)) → ⊥ }
    ensures out_of_turn { CanObey in_series (series_after 3) (go 2 1 Out (At 1)) }
    ensures against_plan { KeepsPlan in_series (series_after 3) 1 → ⊥ }
{}

/// A late report is accepted, and the budgets are missed.
pub fn a_late_report_is_still_a_run()
    ensures run { IsRun in_series late_log }
    ensures controlled { IsControlledRun in_series late_reports late_log late_end }
    ensures punctual_before { ArePunctual in_series (start in_series) (take 3 late_log) }
    ensures late { IsPunctual in_series (late_after 3) (finish 4 0 0) → ⊥ }
    ensures punctual_after { ArePunctual in_series (late_after 4) (drop 4 late_log) }
    ensures ended { HasEnded in_series late_end }
    ensures last { late_end.last ≡ 11 }
    ensures first_gone { since late_end 0 ≡ 6 }
    ensures second_gone { since late_end 1 ≡ 11 }
    ensures first_over_budget { IsInTime in_series late_end 0 → ⊥ }
    ensures second_over_budget { IsInTime in_series late_end 1 → ⊥ }
    ensures late_by_another { IsPunctual with_cleaning (cleaned_after 11) (tidy 13 1) → ⊥ }
{}

/// A run may wait though it could move; it is then no controlled run.
pub fn a_run_need_not_be_eager()
    ensures run { IsRun in_series waiting_log }
    ensures not_at_rest { IsAtRest in_series (waiting_after 7) → ⊥ }
    ensures not_controlled { (end : Cell) → IsControlledRun in_series waiting_reports waiting_log end → ⊥ }
    ensures counts { (reports_in waiting_log ≡ 6) × (moves_in waiting_log ≡ 6) }
    ensures ended { HasEnded in_series waiting_end }
    ensures last { waiting_end.last ≡ 10 }
{}

/// Two crossed orders make a cycle of length 0, there are moments that fit every arc, and the cell still gets stuck.
pub fn crossed_orders_get_stuck()
    ensures shaped { IsWellShaped crossed }
    ensures cycle { IsSimpleCycle crossed (node 0 1 ∷ node 1 1 ∷ []) }
    ensures there { Arc crossed (node 0 1) (node 1 1) 0 }
    ensures back { Arc crossed (node 1 1) (node 0 1) 0 }
    ensures moments { MomentsFit crossed crossed_moments }
    ensures run { IsRun crossed crossed_log }
    ensures controlled { IsControlledRun crossed crossed_reports crossed_log crossed_end }
    ensures exact { AreExact crossed (start crossed) crossed_log }
    ensures first_holder { IsOn crossed crossed_end 0 0 0 }
    ensures second_holder { IsOn crossed crossed_end 1 0 1 }
    ensures first_ready { ready crossed_end 0 ≡ true }
    ensures second_ready { ready crossed_end 1 ≡ true }
    ensures stuck { IsStuck crossed crossed_end }
    ensures first_inside { IsGone crossed crossed_end 0 → ⊥ }
    ensures second_inside { IsGone crossed crossed_end 1 → ⊥ }
{}

/// Two parts can't exchange machines, at any moment.
pub fn a_swap_is_no_run()
    ensures keeps_plan { KeepsPlan crossed crossed_end 0 }
    ensures held { IsOn crossed crossed_end 1 0 1 }
    ensures no_order { CanObey crossed crossed_end (go 4 0 (At 0) (At 1)) → ⊥ }
    ensures no_moment { (t : ℕ) → CanMove crossed crossed_end 0 t → ⊥ }
    ensures no_run { IsRun crossed (crossed_log ++ exchange) → ⊥ }
{}

/// A ring of three machines makes a cycle, and lists that are nearly one are none.
pub fn orders_in_a_ring_make_a_cycle()
    ensures shaped { IsWellShaped in_ring }
    ensures cycle { IsSimpleCycle in_ring (node 0 1 ∷ node 2 1 ∷ node 1 1 ∷ []) }
    ensures first { Arc in_ring (node 0 1) (node 2 1) 0 }
    ensures second { Arc in_ring (node 2 1) (node 1 1) 0 }
    ensures third { Arc in_ring (node 1 1) (node 0 1) 0 }
    ensures reversed { IsSimpleCycle in_ring (node 0 1 ∷ node 1 1 ∷ node 2 1 ∷ []) → ⊥ }
    ensures not_closed { IsSimpleCycle in_ring (node 0 1 ∷ node 2 1 ∷ []) → ⊥ }
    ensures empty { IsSimpleCycle in_ring [] → ⊥ }
    ensures twice { IsSimpleCycle in_ring
        (node 0 1 ∷ node 2 1 ∷ node 1 1 ∷ node 0 1 ∷ node 2 1 ∷ node 1 1 ∷ []) → ⊥ }
{}

/// Arcs and lengths of paths, with and without cleaning.
pub fn paths_of_two_jobs_in_series()
    ensures first { Path in_series (node 0 0 ∷ node 0 1 ∷ node 0 2 ∷ []) (leaving in_series 0) 5 }
    ensures second { Path in_series (node 0 0 ∷ node 0 1 ∷ node 0 2 ∷ node 1 0 ∷ node 1 1 ∷ node 1 2 ∷ [])
        (leaving in_series 1) 10 }
    ensures first_longest { (nodes : List Node) (n : ℕ) → Path in_series nodes (leaving in_series 0) n → n ≤ 5 }
    ensures second_longest { (nodes : List Node) (n : ℕ) → Path in_series nodes (leaving in_series 1) n → n ≤ 10 }
    ensures cleaned { Path with_cleaning (node 0 0 ∷ node 0 1 ∷ node 0 2 ∷ node 1 0 ∷ node 1 1 ∷ node 1 2 ∷ [])
        (leaving with_cleaning 1) 12 }
    ensures longest_cleaned { (nodes : List Node) (n : ℕ)
        → Path with_cleaning nodes (leaving with_cleaning 1) n → n ≤ 12 }
    ensures cleaning_arc { Arc with_cleaning (node 0 2) (node 1 0) 2 }
    ensures bare_arc { Arc in_series (node 0 2) (node 1 0) 0 }
    ensures not_from_entry { HasArc in_series (node 0 0) (node 1 1) → ⊥ }
    ensures not_from_first_step { HasArc in_series (node 0 1) (node 1 0) → ⊥ }
    ensures not_back { HasArc in_series (node 1 1) (node 0 1) → ⊥ }
    ensures moments { MomentsFit in_series series_moments }
    ensures budgets { MeetBudgets in_series series_moments }
    ensures first_no_sooner { (kept : Node → ℕ) → MomentsFit in_series kept → 5 ≤ kept (leaving in_series 0) }
    ensures second_no_sooner { (kept : Node → ℕ) → MomentsFit in_series kept → 10 ≤ kept (leaving in_series 1) }
    ensures ranks { RanksRise in_series series_ranks }
    ensures no_cycle { (nodes : List Node) → IsSimpleCycle in_series nodes → ⊥ }
    ensures serial { IsSerial in_series }
    ensures not_serial { IsSerial crossed → ⊥ }
{}

/// A report that moves nothing, and one that moves three jobs.
pub fn three_machine_flow_run()
    ensures shaped { IsWellShaped in_flow }
    ensures run { IsRun in_flow flow_log }
    ensures controlled { IsControlledRun in_flow flow_reports flow_log flow_end }
    ensures exact { AreExact in_flow (start in_flow) flow_log }
    ensures blocked { IsOn in_flow (flow_after 14) 1 1 1 }
    ensures blocked_ready { ready (flow_after 14) 1 ≡ true }
    ensures none_moves { IsStep in_flow (flow_after 12) (finish 3 1 1) [] }
    ensures all_move { IsStep in_flow (flow_after 14) (finish 7 0 2) (0 ∷ 1 ∷ 2 ∷ []) }
    ensures no_less { IsStep in_flow (flow_after 14) (finish 7 0 2) (0 ∷ 1 ∷ []) → ⊥ }
    ensures no_other_order { IsStep in_flow (flow_after 14) (finish 7 0 2) (2 ∷ 1 ∷ 0 ∷ []) → ⊥ }
    ensures path { Path in_flow flow_path (leaving in_flow 2) 9 }
    ensures reports { (stated_number in_flow ≡ 12) × (reports_in flow_log ≡ 12) }
    ensures ended { HasEnded in_flow flow_end }
    ensures first_gone { since flow_end 0 ≡ 7 }
    ensures second_gone { since flow_end 1 ≡ 8 }
    ensures third_gone { since flow_end 2 ≡ 9 }
    ensures last { flow_end.last ≡ 9 }
{}

/// No job enters a machine that is being cleaned, and a run hasn't ended before its last cleaning has. It meets every
/// premise of `just_in_time`.
pub fn cleaning_delays_the_entry()
    ensures shaped { IsWellShaped with_cleaning }
    ensures run { IsRun with_cleaning cleaned_log }
    ensures controlled { IsControlledRun with_cleaning cleaned_reports cleaned_log cleaned_end }
    ensures exact { AreExact with_cleaning (start with_cleaning) cleaned_log }
    ensures schedule { IsSchedule with_cleaning series_ranks cleaned_moments }
    ensures budgets { MeetBudgets with_cleaning cleaned_moments }
    ensures first_path { Path with_cleaning (node 0 0 ∷ node 0 1 ∷ node 0 2 ∷ []) (leaving with_cleaning 0) 5 }
    ensures second_path { Path with_cleaning (node 0 0 ∷ node 0 1 ∷ node 0 2 ∷ node 1 0 ∷ node 1 1 ∷ node 1 2 ∷ [])
        (leaving with_cleaning 1) 12 }
    ensures cleaning { GoesOn with_cleaning (cleaned_after 7) (Cleaning 1) 7 }
    ensures no_other_cleaning { (due : ℕ) → GoesOn with_cleaning (cleaned_after 7) (Cleaning 0) due → ⊥ }
    ensures free { IsFree with_cleaning (cleaned_after 7) 1 }
    ensures second_ready { ready (cleaned_after 7) 1 ≡ true }
    ensures second_keeps { KeepsPlan with_cleaning (cleaned_after 7) 1 }
    ensures no_entry { CanObey with_cleaning (cleaned_after 7) (go 6 1 Out (At 1)) → ⊥ }
    ensures no_moment { (t : ℕ) → CanMove with_cleaning (cleaned_after 7) 1 t → ⊥ }
    ensures entry { CanObey with_cleaning (cleaned_after 8) (go 7 1 Out (At 1)) }
    ensures reports { (stated_number with_cleaning ≡ 8) × (reports_in cleaned_log ≡ 8) }
    ensures first_gone { IsGone with_cleaning (cleaned_after 13) 0 }
    ensures second_gone { IsGone with_cleaning (cleaned_after 13) 1 }
    ensures unfinished { HasEnded with_cleaning (cleaned_after 13) → ⊥ }
    ensures ended { HasEnded with_cleaning cleaned_end }
    ensures first_out { since cleaned_end 0 ≡ 5 }
    ensures second_out { since cleaned_end 1 ≡ 12 }
    ensures last { cleaned_end.last ≡ 13 }
{}

/// A job visits a machine again. Its visits stand in the machine's order one after the other, and the same report ends
/// the operations of both. The machine is cleaned between them: of the two arcs from the leaving of the machine to its
/// second entry, the longer one is the cleaning's.
pub fn a_tank_is_visited_again()
    ensures shaped { IsWellShaped rinsing }
    ensures serial { IsSerial rinsing }
    ensures run { IsRun rinsing rinsing_log }
    ensures controlled { IsControlledRun rinsing rinsing_reports rinsing_log rinsing_end }
    ensures exact { AreExact rinsing (start rinsing) rinsing_log }
    ensures schedule { IsSchedule rinsing rinsing_ranks rinsing_moments }
    ensures budgets { MeetBudgets rinsing rinsing_moments }
    ensures own_arc { Arc rinsing (node 0 1) (node 0 2) 2 }
    ensures cleaning_arc { Arc rinsing (node 0 1) (node 0 2) 6 }
    ensures longest { Path rinsing (node 0 0 ∷ node 0 1 ∷ node 0 2 ∷ []) (node 0 2) 9 }
    ensures first_visit { IsOn rinsing (rinsing_after 2) 0 0 0 }
    ensures cleaned { GoesOn rinsing (rinsing_after 5) (Cleaning 0) 9 }
    ensures waits { IsAtRest rinsing (rinsing_after 6) }
    ensures second_visit { IsOn rinsing (rinsing_after 8) 0 2 0 }
    ensures ended_again { CanReport rinsing (rinsing_after 8) (finish 12 0 0) }
    ensures reports { (stated_number rinsing ≡ 9) × (reports_in rinsing_log ≡ 9) }
    ensures ended { HasEnded rinsing rinsing_end }
    ensures first_gone { since rinsing_end 0 ≡ 12 }
{}

/// The deadlines of a plan with room in its budgets. In a run in which each activity ends by its deadline, some past
/// their due moments, both jobs are out by their budgets, and no sooner. Where one ends past its deadline, and one
/// after it early, the job may still be out.
pub fn each_activity_ends_by_its_deadline()
    ensures shaped { IsWellShaped with_room }
    ensures schedule { IsSchedule with_room series_ranks cleaned_moments }
    ensures budgets { MeetBudgets with_room cleaned_moments }
    ensures deadlines { AreDeadlines with_room (start with_room) room_moments }
    ensures not_the_earliest { AreDeadlines with_room (start with_room) cleaned_moments → ⊥ }
    ensures none_later { (kept : Node → ℕ) → AreDeadlines with_room (start with_room) kept → kept (node 0 1) ≤ 7 }
    ensures controlled { IsControlledRun with_room slow_reports slow_log slow_end }
    ensures late { ArePunctual with_room (start with_room) slow_log → ⊥ }
    ensures own { AreByTheirOwn with_room room_moments (start with_room) slow_log }
    ensures ended { HasEnded with_room slow_end }
    ensures first_out { since slow_end 0 ≡ 9 }
    ensures second_out { since slow_end 1 ≡ 20 }
    ensures last { slow_end.last ≡ 100 }
    ensures hasty { IsControlledRun with_room hasty_reports hasty_log hasty_end }
    ensures past { AreByTheirOwn with_room room_moments (start with_room) hasty_log → ⊥ }
    ensures still_out { IsOutByBudget with_room hasty_end 0 }
{}

/// From cells in mid-run: what holds up which node, paths ahead, and runs that go on, from a cell in which an order is
/// due.
pub fn a_run_goes_on_from_there()
    ensures arrival { HoldsUp with_room (start with_room) (Arrival 1) (node 1 0) }
    ensures operation { HoldsUp with_room (slow_after 5) (Operation 0 1) (node 0 2) }
    ensures no_other { HoldsUp with_room (slow_after 5) (Operation 0 1) (node 1 0) → ⊥ }
    ensures cleaning { HoldsUp with_room (slow_after 7) (Cleaning 1) (node 1 0) }
    ensures none_waits { (v : Node) → HoldsUp with_room (slow_after 11) (Cleaning 1) v → ⊥ }
    ensures path { PathAhead with_room (slow_after 5) 8 (node 0 2 ∷ node 1 0 ∷ node 1 1 ∷ node 1 2 ∷ [])
        (leaving with_room 1) 16 }
    ensures longest { (nodes : List Node) (n : ℕ)
        → PathAhead with_room (slow_after 5) 8 nodes (leaving with_room 1) n → n ≤ 16 }
    ensures overdue { PathAhead with_room (slow_after 5) 10 (node 0 2 ∷ node 1 0 ∷ node 1 1 ∷ node 1 2 ∷ [])
        (leaving with_room 1) 17 }
    ensures passed { (nodes : List Node) (n : ℕ) → PathAhead with_room (slow_after 5) 8 nodes (node 0 1) n → ⊥ }
    ensures goes_on { GoesOnTo with_room (slow_after 4) 7 (drop 3 slow_reports) (drop 4 slow_log) slow_end }
    ensures later { GoesOnTo with_room (slow_after 4) 8 [] (Moved (go 8 0 (At 0) (At 1)) ∷ [])
        (ends_in with_room (take 4 slow_log ++ Moved (go 8 0 (At 0) (At 1)) ∷ [])) }
    ensures not_left { (end : Cell) → GoesOnTo with_room (slow_after 4) 7 [] [] end → ⊥ }
{}

/// Releases above 0: an early arrival is possible, one after the release is late. The run meets every premise of
/// `just_in_time`.
pub fn jobs_arrive_by_their_releases()
    ensures shaped { IsWellShaped with_releases }
    ensures schedule { IsSchedule with_releases series_ranks released_moments }
    ensures budgets { MeetBudgets with_releases released_moments }
    ensures awaited { GoesOn with_releases (start with_releases) (Arrival 0) 3 }
    ensures early { CanReport with_releases (start with_releases) (arrive 0 0) }
    ensures late { IsPunctual with_releases (start with_releases) (arrive 2 1) → ⊥ }
    ensures late_by_another { IsPunctual with_releases (start with_releases) (arrive 2 0) → ⊥ }
    ensures controlled { IsControlledRun with_releases released_reports released_log released_end }
    ensures exact { AreExact with_releases (start with_releases) released_log }
    ensures first_path { Path with_releases (node 0 0 ∷ node 0 1 ∷ node 0 2 ∷ []) (leaving with_releases 0) 8 }
    ensures second_path { Path with_releases (node 0 0 ∷ node 0 1 ∷ node 0 2 ∷ node 1 0 ∷ node 1 1 ∷ node 1 2 ∷ [])
        (leaving with_releases 1) 13 }
    ensures ended { HasEnded with_releases released_end }
    ensures first_out { since released_end 0 ≡ 8 }
    ensures second_out { since released_end 1 ≡ 13 }
{}

/// Impossible reports leave the controlled run as it is: among others an end on another machine than the job's, and
/// an arrival of a job that is inside.
pub fn a_report_that_is_not_possible_adds_nothing()
    ensures controlled { IsControlledRun with_cleaning refused_reports refused_log refused_end }
    ensures not_cleaned { CanReport with_cleaning (refused_after 7) (tidy 5 0) → ⊥ }
    ensures no_machine { CanReport with_cleaning (refused_after 7) (tidy 5 2) → ⊥ }
    ensures past { CanReport with_cleaning (refused_after 7) (tidy 4 1) → ⊥ }
    ensures inside { CanReport with_cleaning (refused_after 3) (arrive 3 0) → ⊥ }
    ensures other_machine { CanReport with_cleaning (refused_after 3) (finish 3 0 1) → ⊥ }
    ensures gone_job { CanReport with_cleaning (refused_after 7) (finish 5 0 1) → ⊥ }
    ensures twice { CanReport with_cleaning (refused_after 7) (arrive 5 1) → ⊥ }
    ensures no_job { CanReport with_cleaning (refused_after 7) (arrive 5 2) → ⊥ }
    ensures latest { CanReport with_cleaning (refused_after 7) (tidy 1_000_000_000_000 1) }
    ensures too_late { CanReport with_cleaning (refused_after 7) (tidy 1_000_000_000_001 1) → ⊥ }
    ensures late { IsPunctual with_cleaning (refused_after 7) (tidy 8 1) → ⊥ }
    ensures reports { (stated_number with_cleaning ≡ 8) × (reports_in refused_log ≡ 5) }
    ensures unfinished { HasEnded with_cleaning refused_end → ⊥ }
{}

/// An operation with the nominal time 0.
pub fn an_operation_without_length()
    ensures shaped { IsWellShaped instant }
    ensures controlled { IsControlledRun instant instant_reports instant_log instant_end }
    ensures exact { AreExact instant (start instant) instant_log }
    ensures due { GoesOn instant (instant_after 2) (Operation 0 0) 0 }
    ensures path { Path instant (node 0 0 ∷ node 0 1 ∷ []) (leaving instant 0) 0 }
    ensures ended { HasEnded instant instant_end }
    ensures out { IsOutByBudget instant instant_end 0 }
{}

/// The limits of an instance and of a plan, each as a number.
pub fn the_limits_in_numbers()
    ensures jobs { MAX_JOBS ≡ 200 }
    ensures machines { MAX_MACHINES ≡ 100 }
    ensures nominal { MAX_NOMINAL ≡ 1_000_000 }
    ensures clean { MAX_CLEAN ≡ 1_000_000 }
    ensures release { MAX_RELEASE ≡ 1_000_000_000 }
    ensures moment { MAX_MOMENT ≡ 1_000_000_000_000 }
{}
