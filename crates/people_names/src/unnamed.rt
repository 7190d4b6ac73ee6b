//! Why a job that comes behind the others doesn't get a name.

ghost use Rattle.std.specs.Prelude.{◌≡◌, ◌≤◌, ◌++◌, ◌∷◌, [], length, map, string_bytes, None, IfErr, OnErr, OnOk};
ghost use Rattle.people_names.specs.AddedNames.{AreJobNames, IsWhyUnnamed, job_name_fault_name, why_unnamed};
ghost use Rattle.people_names.specs.Faults.{is_among};
ghost use Rattle.people_names.specs.declared.names.TheConstants.{LONGEST_NAME};

use crate::name_texts::is_name;
use std::alloc::{AllocError, Global};
use thiserror::Error;

/// Why a job that comes behind the others doesn't get a name: the first reason, in this order.
#[derive(Clone, Copy, Debug, PartialEq, Eq, Error)]
pub enum JobNameFault {
    /// The text can't be a name.
    #[error("BadName")]
    BadName,
    /// It is the name of a job before it.
    #[error("NameTwice")]
    NameTwice,
    /// A job before it has no name.
    #[error("NoNames")]
    NoNames,
}

impl JobNameFault {
    /// The name of the fault.
    pub fn name(self) -> &'static str
        ensures { result.now ≡ job_name_fault_name self }
    {
        match self {
            JobNameFault::BadName => "BadName",
            JobNameFault::NameTwice => "NameTwice",
            JobNameFault::NoNames => "NoNames",
        }
    }
}

/// Why the name of a job isn't added.
#[derive(Clone, Copy, Debug, PartialEq, Eq, Error)]
pub enum NotNamed {
    /// The job doesn't get it.
    #[error("{0}")]
    Refused(JobNameFault),
    /// Out of memory.
    #[error("Memory")]
    Memory,
}

impl From<AllocError> for NotNamed {
    ghost use Rattle.std.specs.Prelude.{◌≡◌};
    ghost use Rattle.people_names.specs.declared.unnamed.NotNamed.TheVariants.{Memory};

    ghost from_gives = { λ _ fault. fault ≡ Memory };

    fn from(_error: AllocError) -> NotNamed {
        NotNamed::Memory
    }
}

/// Adds the name of the job behind others, of which the first have these names, or all. Unless it is added they stay as
/// they are.
pub(crate) fn add_name(
    alloc: Global,
    names: &mut Vec<String>,
    name: &str,
    all_named: bool,
) -> Result<(), NotNamed>
    ensures fine { OnOk result (why_unnamed (map string_bytes names.old.items) all_named name.now ≡ None) }
    ensures added { OnOk result (map string_bytes names.new.items ≡ map string_bytes names.old.items ++ name.now ∷ []) }
    ensures short { OnOk result (length name.now ≤ LONGEST_NAME) }
    ensures readable { OnOk result
        (AreJobNames (map string_bytes names.old.items) → AreJobNames (map string_bytes names.new.items)) }
    ensures refused { IfErr result (IsWhyUnnamed (why_unnamed (map string_bytes names.old.items) all_named name.now)) }
    ensures unchanged { OnErr result (names.new.items ≡ names.old.items) }
{
    if let Some(fault) = why_unnamed(names, all_named, name) {
        return Err(NotNamed::Refused(fault));
    }
    let copy = String::from_str(alloc, name)?;
    names.push(copy).map_err(AllocError::from)?;
    Ok(())
}

/// Why a job behind others, of which the first have these names, or all, doesn't get this one.
fn why_unnamed(names: &[String], all_named: bool, name: &str) -> Option<JobNameFault>
    ensures { result ≡ why_unnamed (map string_bytes names.now) all_named name.now }
{
    if !is_name(name) {
        return Some(JobNameFault::BadName);
    }
    if is_among(name, names) {
        return Some(JobNameFault::NameTwice);
    }
    if all_named {
        None
    } else {
        Some(JobNameFault::NoNames)
    }
}

/// Whether the name is one of these.
fn is_among(name: &str, names: &[String]) -> bool
    ensures { result ≡ is_among name.now (map string_bytes names.now) }
{
    for other in names {
        if other.as_str() == name {
            return true;
        }
    }
    false
}
