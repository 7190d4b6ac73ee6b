use shop_base::{JobNo, MachineNo};

/// The texts with which a log begins.
#[derive(Clone, Copy)]
pub struct Texts<'a> {
    /// The instance.
    pub file: &'a [u8],
    /// The plan.
    pub plan: &'a [u8],
    /// The names of jobs and machines, if there are any.
    pub names: Option<&'a [u8]>,
}

/// What a job was before the log began.
#[derive(Clone, Copy, Debug, PartialEq, Eq)]
pub enum Origin {
    /// The job with this number.
    Was(JobNo),
    /// It wasn't there.
    New,
    /// It wasn't there, and it is on this machine so that no other job enters it.
    Holds(MachineNo),
}
