//! Changes one after another.

ghost use Rattle.std.specs.Prelude.{◌≡◌, ◌<◌, IfOk, OnOk, IfErr, length, slice_get, Some};
ghost use Rattle.plan_revise.specs.Revised.{AreMade, IsRevised, IsReasonNotRevised, IsRevisedWithin, IsReasonNotRevisedWithin};
ghost use Rattle.plan_revise.specs.{Aside.IsPlantOf, Fits.IsRevision};
ghost use Rattle.plan_revise.specs.Answers.{refused_at, ParsesFirst};

use crate::aside::plant_of;
use crate::change::{Change, NotRevised, Refusal};
use crate::draft::Draft;
use crate::run_so_far::RunSoFar;
use cell_tables::Rest;
use shop_base::{Planned, Shaped};
use std::alloc::Global;

/// The shop and its plan after these changes, each of what those before it made, by the rest of the run. What is given
/// stays as it is. With no change the answer is a copy of it.
///
/// Whoever has changes of several kinds gives all [`Change::Until`] first, then all [`Change::Add`], all
/// [`Change::Route`], all [`Change::Release`], all [`Change::Budget`], all [`Change::Hold`], all [`Change::Scrap`] and all
/// [`Change::Down`]. Behind a [`Change::Hold`] the run has to say that its job has entered before it is changed again.
pub fn revise<P: Planned>(
    alloc: Global,
    rest: &Rest<P>,
    changes: &[Change],
) -> Result<Shaped, NotRevised>
    ensures revised { IfOk result (IsRevised rest.now.plan rest.now.cell rest.now.present changes.now) }
    ensures refused { IfErr result (IsReasonNotRevised rest.now.plan rest.now.cell rest.now.present changes.now) }
{
    revise_within(alloc, rest, plant_of(rest.shaped()), changes)
}

/// The same in a plant with so many machines. Where one more is in the shop, it is that of the jobs that are put aside, or
/// is left from it, and nobody visits it any more.
pub fn revise_within<P: Planned>(
    alloc: Global,
    rest: &Rest<P>,
    plant: u32,
    changes: &[Change],
) -> Result<Shaped, NotRevised>
    requires { IsPlantOf rest.now.plan plant }
    ensures revised { IfOk result (IsRevisedWithin rest.now.plan rest.now.cell rest.now.present plant changes.now) }
    ensures refused { IfErr result
        (IsReasonNotRevisedWithin rest.now.plan rest.now.cell rest.now.present plant changes.now) }
{
    let run = RunSoFar::of(rest, plant);
    match Draft::of(alloc, rest.shaped()) {
        Ok(draft) => draft.revised_by(alloc, &run, changes),
        Err(error) => Err(NotRevised::from(error)),
    }
}

impl Draft {
    /// The shop and its plan after these changes.
    fn revised_by<P: Planned>(
        self,
        alloc: Global,
        run: &RunSoFar<P>,
        changes: &[Change],
    ) -> Result<Shaped, NotRevised>
        requires { IsRevision run.now self }
        ensures revised { IfOk result (AreMade run.now self changes.now) }
        ensures refused { IfErr result (ParsesFirst run.now self changes.now) }
    {
        let mut draft = self;
        match draft.make_all(alloc, run, changes) {
            Ok(()) => Ok(draft.into_shaped()),
            Err(answer) => Err(answer),
        }
    }

    /// Makes these changes, one after another.
    fn make_all<P: Planned>(
        &mut self,
        alloc: Global,
        run: &RunSoFar<P>,
        changes: &[Change],
    ) -> Result<(), NotRevised>
        requires { IsRevision run.now self.old }
        ensures made { OnOk result (AreMade run.now self.old changes.now self.new) }
        ensures revision { OnOk result (IsRevision run.now self.new) }
        ensures refused { IfErr result (ParsesFirst run.now self.old changes.now) }
    {
        // Called for its clause alone: what changes are judged by is sound.
        let _plant = run.plant();
        for place in 0..changes.len() {
            let change = change_at(changes, place);
            match self.make(alloc, run, change) {
                Ok(()) => {}
                Err(refusal) => return Err(refused_at(place, refusal)),
            }
        }
        Ok(())
    }
}

/// What is answered of a refusal of the change at this place.
fn refused_at(place: usize, refusal: Refusal) -> NotRevised
    ensures { result ≡ refused_at place refusal }
{
    match refusal {
        Refusal::Fault(fault) => NotRevised::Refused {
            change: place,
            fault,
        },
        Refusal::Memory => NotRevised::Memory,
    }
}

/// The change at this place.
fn change_at<'a>(changes: &[Change<'a>], place: usize) -> Change<'a>
    requires { place < length changes.now }
    ensures { slice_get changes.now place ≡ Some result }
{
    changes[place]
}
