//! The names that stay where jobs are left out of a shop.

ghost use Rattle.std.specs.Prelude.{◌≡◌, ◌++◌, ◌∷◌, [], map, string_bytes, take, IfOk, OnOk};
ghost use Rattle.people_names.specs.{KeptNames.names_of_jobs, Lists.AreShort};

use crate::names::name_at;
use shop_base::JobNo;
use std::alloc::{AllocError, Global};

/// The names of the jobs with these numbers, up to the first that has none.
pub(crate) fn names_of_jobs(
    alloc: Global,
    names: &[String],
    jobs: &[JobNo],
) -> Result<Vec<String>, AllocError>
    requires { AreShort (map string_bytes names.now) }
    ensures exact { IfOk result
        (λ kept. map string_bytes kept.items ≡ names_of_jobs (map string_bytes names.now) jobs.now) }
    ensures short { IfOk result (λ kept. AreShort (map string_bytes kept.items)) }
{
    let mut kept = Vec::new(alloc);
    for job in jobs {
        let Some(name) = name_at(names, *job) else {
            return Ok(kept);
        };
        push_copy(alloc, &mut kept, name)?;
    }
    Ok(kept)
}

/// Adds a copy of a name.
fn push_copy(alloc: Global, kept: &mut Vec<String>, name: &str) -> Result<(), AllocError>
    ensures { OnOk result (map string_bytes kept.new.items ≡ map string_bytes kept.old.items ++ name.now ∷ []) }
{
    let copy = String::from_str(alloc, name)?;
    kept.push(copy)?;
    Ok(())
}

/// The first names, at most so many.
pub(crate) fn first_names(
    alloc: Global,
    names: &[String],
    most: usize,
) -> Result<Vec<String>, AllocError>
    requires { AreShort (map string_bytes names.now) }
    ensures exact { IfOk result (λ kept. map string_bytes kept.items ≡ take most (map string_bytes names.now)) }
    ensures short { IfOk result (λ kept. AreShort (map string_bytes kept.items)) }
{
    let mut kept = Vec::new(alloc);
    for (place, name) in names.iter().enumerate() {
        if place >= most {
            return Ok(kept);
        }
        push_copy(alloc, &mut kept, name.as_str())?;
    }
    Ok(kept)
}
