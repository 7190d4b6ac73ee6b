ghost use Rattle.std.specs.Prelude.{◌≡◌, IfOk};

use crate::routes::{Routes, SharedRows};
use crate::shop::Shop;
use std::alloc::{AllocError, Global};
use std::marker::Model;

/// A shop of which there can be many: they all read the same routes, so that one more takes no memory for them.
#[derive(Debug, Drop)]
pub struct SharedShop {
    machines: u32,
    routes: SharedRows,
    recirculates: bool,
}

impl Model for SharedShop {
    ghost use Rattle.std.specs.Arc.{arc_value};
    ghost use Rattle.shop_base.specs.Shop.{JobShop, IsShop};
    ghost use Rattle.shop_base.specs.Vectors.{lists_of};

    ghost Value = { JobShop };

    ghost view = { λ s. record { machines = s.machines; routes = lists_of (arc_value s.routes).items; recirculates = s.recirculates } };

    ghost invariant = { λ s. IsShop (record { machines = s.machines; routes = lists_of (arc_value s.routes).items; recirculates = s.recirculates }) };
}

impl SharedShop {
    /// The shop, whose routes move to where others can read them. On an error the shop is gone.
    pub fn new(alloc: Global, shop: Shop) -> Result<SharedShop, AllocError>
        ensures { IfOk result (λ shared. shared ≡ shop) }
    {
        let Shop {
            machines,
            routes,
            recirculates,
        } = shop;
        let routes = routes.into_shared(alloc)?;
        Ok(SharedShop {
            machines,
            routes,
            recirculates,
        })
    }

    /// The shop once more, with the same routes. It is refused only where no more can be counted that read them.
    pub fn shop(&self, alloc: Global) -> Result<Shop, AllocError>
        ensures { IfOk result (λ shop. shop ≡ self.now) }
    {
        let routes = self.routes.clone()?;
        Ok(Shop {
            machines: self.machines,
            routes: Routes::shared(alloc, routes),
            recirculates: self.recirculates,
        })
    }
}
