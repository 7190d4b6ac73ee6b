//! The room for what is read at a time.

ghost use Rattle.std.specs.Prelude.{◌≡◌, ◌<◌, vec_len, IfOk};

use std::alloc::{AllocError, Global};

/// The most bytes that are read at a time.
pub const MAX_PIECE: usize = 65_536;

/// A room for what is read at a time.
pub fn reading_room(alloc: Global) -> Result<Vec<u8>, AllocError>
    ensures { IfOk result (λ room. vec_len room ≡ MAX_PIECE) }
{
    Ok(vec![in alloc; 0; MAX_PIECE]?)
}
