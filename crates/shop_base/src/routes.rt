//! The routes of a shop, which other shops can read too.

ghost use Rattle.std.specs.Prelude.{◌≡◌, ◌≤◌, IfOk, MatchOption, length, slice_get, Some};
ghost use Rattle.std.specs.Arc.{arc_value};
ghost use Rattle.shop_base.specs.Vectors.{lists_of};

use crate::shop::{JobNo, Step};
use std::alloc::{AllocError, Global};
use std::marker::Model;
use std::sync::Arc;

/// Routes that several shops read, which are freed with the last of these shops.
pub(crate) type SharedRows = Arc<Vec<Vec<Step>>, Global>;

/// The routes of a shop: its own, or shared ones, beside which it has none of its own. A job's route is looked for among
/// its own ones first, so that it costs a shop nothing that others can be shared.
#[derive(Debug, Drop)]
pub(crate) struct Routes {
    own: Vec<Vec<Step>>,
    shared: Option<SharedRows>,
}

impl Model for Routes {
    ghost use Rattle.std.specs.Prelude.{List};
    ghost use Rattle.shop_base.specs.declared.shop.Step.{Step};
    ghost use Rattle.shop_base.specs.Routes.{routes_of, AreNoneBeside};

    ghost Value = { List (List Step) };

    ghost view = { λ r. routes_of r.own.items r.shared };

    ghost invariant = { λ r. AreNoneBeside r.own.items r.shared };
}

impl Routes {
    /// The routes of one shop alone.
    pub(crate) fn own(rows: Vec<Vec<Step>>) -> Routes
        ensures { result ≡ lists_of rows.items }
    {
        Routes {
            own: rows,
            shared: None,
        }
    }

    /// The routes of many shops.
    pub(crate) fn shared(alloc: Global, rows: SharedRows) -> Routes
        ensures { result ≡ lists_of (arc_value rows).items }
    {
        Routes {
            own: Vec::new(alloc),
            shared: Some(rows),
        }
    }

    /// All of them.
    pub(crate) fn rows(&self) -> &[Vec<Step>]
        ensures { lists_of result.now ≡ self.now }
    {
        match &self.shared {
            None => self.own.as_slice(),
            Some(rows) => rows.as_ref().as_slice(),
        }
    }

    /// The route of a job, none past the last.
    pub(crate) fn row(&self, job: JobNo) -> Option<&[Step]>
        ensures { MatchOption result (length self.now ≤ job)
            (λ row. slice_get self.now job ≡ Some row.now) }
    {
        match (self.own.get(job as usize), &self.shared) {
            (Some(row), _) => Some(row.as_slice()),
            (None, Some(rows)) => row_of(rows.as_ref().as_slice(), job),
            (None, None) => None,
        }
    }

    /// Lays them where several shops can read them, if they don't lie there. On an error they are gone.
    pub(crate) fn into_shared(self, alloc: Global) -> Result<SharedRows, AllocError>
        ensures { IfOk result (λ rows. lists_of (arc_value rows).items ≡ self) }
    {
        let Routes { own, shared } = self;
        match shared {
            None => Arc::new(alloc, own).map_err(AllocError::from),
            Some(rows) => Ok(rows),
        }
    }
}

fn row_of(rows: &[Vec<Step>], job: JobNo) -> Option<&[Step]>
    ensures { MatchOption result (length (lists_of rows.now) ≤ job)
        (λ row. slice_get (lists_of rows.now) job ≡ Some row.now) }
{
    rows.get(job as usize).map(|row| row.as_slice())
}
