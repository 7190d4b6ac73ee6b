ghost use Rattle.std.specs.Prelude.{Some};
ghost use Rattle.shop_base.specs.NodeText.{node_text};

use crate::shop::JobNo;
use std::fmt;

/// A node of the alternative graph (Mascis and Pacciarelli, EJOR 143, 2002): the moment at which a job
/// enters its step `place`, or leaves the cell where `place` is the length of its route. Written `j.k`.
#[derive(Clone, Copy, Debug, PartialEq, Eq)]
pub struct Node {
    pub job: JobNo,
    pub place: u32,
}

impl fmt::Display for Node {
    ghost output = { λ v. Some (node_text v) };

    fn fmt<W: fmt::Write>(&self, f: &mut fmt::Formatter<W>) -> fmt::Result {
        write!(f, "{}.{}", self.job, self.place)
    }
}
