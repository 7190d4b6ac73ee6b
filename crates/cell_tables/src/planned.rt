//! The planned shop of a cell.

use crate::work_cell::WorkCell;
use shop_base::{Planned, Shaped};

impl<P: Planned> Planned for WorkCell<P> {
    ghost planned = { λ c. c.plan };

    fn shaped(&self) -> &Shaped {
        WorkCell::shaped(self)
    }
}
