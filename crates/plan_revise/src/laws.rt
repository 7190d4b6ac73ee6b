//! The laws of revised plans, of every run and of every list of changes that aren't refused.

// Nothing is done here: a function's contract is the law, so a check of this crate proves it.

ghost use Rattle.plan_revise.specs.RevisedLaw.{TheRunSoFarStays, NoCycleComes, NobodyElseIsLater};
ghost use Rattle.plan_revise.specs.RevisedLaw.{NoPartComesToAMachineThatIsDown, NoDeadlineComesSooner};
ghost use Rattle.plan_revise.specs.RevisedLaw.{RevisedRestsStayAccepted, AHeldMachineHoldsUpItsNextEntry};
ghost use Rattle.plan_revise.specs.RevisedLaw.{NobodyIsLaterByMoreThanTheHold};

use cell_tables::laws::a_kept_run_is_one_of_the_other_plan;

/// The run so far is a run of the revised plan in the revised shop, and ends there in the same cell but for what is
/// ahead.
pub fn the_run_so_far_stays()
    ensures { TheRunSoFarStays }
{
    a_kept_run_is_one_of_the_other_plan();
}

/// Where the plan has no cycle, the revised plan has none. So a run that goes on by it never sticks.
pub fn no_cycle_comes()
    ensures { NoCycleComes }
{}

/// Where no operation is said to last longer, no job to come later, no machine is held, and only jobs outside go another
/// way, no other job that was there and isn't put aside is later for the changes: its earliest leaving is at most what it
/// was, and so is each of its moves that both plans have.
pub fn nobody_else_is_later()
    ensures { NobodyElseIsLater }
{
    a_kept_run_is_one_of_the_other_plan();
}

/// Where the machines that are shut down come last among the changes, as those of the command do, no job has one of them
/// ahead. So no order brings a part there. (A job that is added behind may have it on its route.)
pub fn no_part_comes_to_a_machine_that_is_down()
    ensures { NoPartComesToAMachineThatIsDown }
{
    a_kept_run_is_one_of_the_other_plan();
}

/// Where jobs are scrapped, machines are down, jobs come no later and promises are no sooner, no deadline of a job that
/// isn't put aside comes sooner.
pub fn no_deadline_comes_sooner()
    ensures { NoDeadlineComesSooner }
{
    a_kept_run_is_one_of_the_other_plan();
}

/// Where jobs are scrapped, machines are down, jobs come no later and promises are no sooner, a rest that is to be
/// accepted stays so.
pub fn accepted_rests_stay_accepted()
    ensures { RevisedRestsStayAccepted }
{
    a_kept_run_is_one_of_the_other_plan();
}

/// Where a machine is held, and the run goes on by the entry of the job that holds it, moments fit the rest exactly where
/// they fitted it before, and the machine's next entry waits for the end of the hold and the cleaning. So each other move
/// has the earliest moment that it had if that entry couldn't come sooner.
pub fn a_held_machine_holds_up_its_next_entry()
    ensures { AHeldMachineHoldsUpItsNextEntry }
{
    a_kept_run_is_one_of_the_other_plan();
}

/// Where a machine is held, nobody else is later by more than the time from now to the end of the hold, and the cleaning
/// time: the moments that fitted the rest fit it again, each so much later.
pub fn nobody_is_later_by_more_than_the_hold()
    ensures { NobodyIsLaterByMoreThanTheHold }
{
    a_kept_run_is_one_of_the_other_plan();
}
