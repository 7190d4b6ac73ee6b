//! The laws of bounds: of those that a shop has with its releases and cleaning times, of every well shaped plan with
//! these, whatever its orders and budgets.
//!
//! A job's bound is its release and its nominal times, where each visit to a machine begins at least the machine's
//! cleaning time after the job has left it before. A machine to which two or more visits are made has one too: all its
//! nominal times, its cleaning time once fewer than its visits, and the least that the head of one of them and the tail
//! of another add up to.

// Nothing is done here: a function's contract is the law, so a check of this crate proves it.

ghost use Rattle.plan_bounds.specs.BoundsLaw.{NoPlanIsSooner, NeverInTime};

/// Some path to each job's leaving is at least as long as the job's bound. Some path to some job's leaving is at
/// least as long as the greatest bound of all machines and jobs. So neither the greatest length of a path to a
/// leaving nor the greatest of them all is less.
pub fn no_plan_is_sooner()
    ensures { NoPlanIsSooner }
{}

/// A job whose bound is past its budget is late in every plan: by moments that fit it leaves past its budget. In no run
/// whose reports are exact is it out by its budget.
pub fn never_in_time()
    ensures { NeverInTime }
{}
