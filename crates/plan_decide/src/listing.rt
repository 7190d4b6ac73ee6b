//! What is listed of promises that exclude each other.

ghost use Rattle.std.specs.Prelude.{◌≡◌, ◌++◌, OnOk, [], ◌∷◌};

use crate::decided::Excluded;
use std::alloc::AllocError;

/// What is listed, in order, and whether a pair may be missing.
#[derive(Drop)]
pub(crate) struct Listing {
    pub listed: Vec<Excluded>,
    pub pairs_open: bool,
}

/// Adds one more.
pub(crate) fn list_one(found: &mut Listing, one: Excluded) -> Result<(), AllocError>
    ensures listed { OnOk result (found.new.listed.items ≡ found.old.listed.items ++ one ∷ []) }
    ensures same { found.new.pairs_open ≡ found.old.pairs_open }
{
    found.listed.push(one)?;
    Ok(())
}
