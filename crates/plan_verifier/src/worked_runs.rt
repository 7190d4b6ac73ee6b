//! A machine that is visited again: worked examples, computed on the definitions.

// Nothing is done here: each function's contract says what holds of plans that are written out in
// `specs/VisitedAgain.antt`.

ghost use Rattle.std.specs.Prelude.{[], ◌∷◌};
ghost use Rattle.shop_base.specs.{Cell.start, Deadlines.AreDeadlines, Graph.{node, leaving, Arc}};
ghost use Rattle.alt_graph.specs.Evidence.{IsCycle};
ghost use Rattle.plan_verifier.specs.{Accepted.{IsAcceptable, IsLongestTo, IsMakespan}, Verdicts.IsFirstLate};
ghost use Rattle.plan_verifier.specs.{Held.{IsHeldUp, IsBoundOf}, Rest.{IsChainAhead, IsGreatestAhead}};
ghost use Rattle.plan_verifier.specs.RestVerdicts.{IsAcceptableAhead};
ghost use Rattle.plan_verifier.specs.VisitedAgain.{rinsed_by, rinsed_moments, rinsed_path, one_out, one_dipped};
ghost use Rattle.plan_verifier.specs.VisitedAgain.{by_tank, entangled};

/// From a rack's first rinse to its second one in the same tank two arcs lead: its own, over the bath, and that of the
/// tank's order. Here the tank's cleaning takes longer than the bath, so it counts, in the plan's longest paths, its
/// deadlines and the rest of its run. What the cleaning holds up is the rack's next visit to the tank, and not one
/// behind it.
pub fn a_rack_is_rinsed_again()
    ensures own_arc { Arc (rinsed_by 21) (node 0 1) (node 0 2) 2 }
    ensures order_arc { Arc (rinsed_by 21) (node 0 1) (node 0 2) 6 }
    ensures acceptable { IsAcceptable (rinsed_by 21) }
    ensures longest { IsLongestTo (rinsed_by 21) (leaving (rinsed_by 21) 0) rinsed_path }
    ensures makespan { IsMakespan (rinsed_by 21) 21 }
    ensures deadlines { AreDeadlines (rinsed_by 21) (start (rinsed_by 21)) rinsed_moments }
    ensures late { IsFirstLate (rinsed_by 20) 0 21 rinsed_path }
    ensures first_held { IsBoundOf (rinsed_by 21) one_out 4 (node 0 0) (by_tank 3) }
    ensures second_not { IsHeldUp (rinsed_by 21) one_out (node 0 2) → ⊥ }
    ensures second_held { IsBoundOf (rinsed_by 21) one_dipped 13 (node 0 2) (by_tank 12) }
    ensures acceptable_ahead { IsAcceptableAhead (rinsed_by 21) one_dipped 13 }
    ensures longest_ahead { IsGreatestAhead (rinsed_by 21) one_dipped 13 (leaving (rinsed_by 21) 0) 21 }
    ensures chain_ahead { IsChainAhead (rinsed_by 21) one_dipped 13 (node 0 2 ∷ node 0 3 ∷ []) 21 }
{}

/// Two racks are rinsed, dipped and rinsed again. While one is dipped the other one is rinsed: then neither can go on.
pub fn racks_that_are_rinsed_again_can_lock()
    ensures cycle { IsCycle entangled (node 0 2 ∷ node 1 1 ∷ []) }
{}
