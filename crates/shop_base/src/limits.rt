//! The limits of an instance and of a plan.

/// The most jobs of a shop. A shop has at least one.
pub const MAX_JOBS: usize = 200;

/// The most machines of a shop. A shop has at least one.
pub const MAX_MACHINES: u32 = 100;

/// The most steps of a route. A route has at least one.
pub const MAX_STEPS: usize = 100;

/// The longest nominal time of a step, in time units.
pub const MAX_NOMINAL: u64 = 1_000_000;

/// The longest cleaning time of a machine, in time units.
pub const MAX_CLEAN: u64 = 1_000_000;

/// The latest release of a job.
pub const MAX_RELEASE: u64 = 1_000_000_000;

/// The latest moment of a report and the largest budget.
pub const MAX_MOMENT: u64 = 1_000_000_000_000;
